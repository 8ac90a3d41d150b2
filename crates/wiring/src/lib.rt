// The library for C: the filter and the amendment, with the answer as four numbers. include/wiring.h says it to C.
#![tactic(auto)]

ghost use Rattle.std.specs.Prelude.{◌≡◌};
ghost use Rattle.wiring.specs.Encoding.{encoded, FilterReplies, AmendReplies};

use answer::{Answer, Counts};

// An answer, as C is handed it: number 0 is accepted, and what does not apply is 0.
#[repr(C)]
#[derive(Clone, Copy, Debug, PartialEq, Eq)]
pub struct Reply {
    pub number: u16,
    pub place: u16,
    pub struck: u16,
    pub pinned: u16,
}

impl From<Answer> for Reply {
    ghost from_gives = { λ answer reply. reply ≡ encoded answer };

    fn from(answer: Answer) -> Reply {
        match answer {
            Ok(Counts { struck, pinned }) => Reply {
                number: 0,
                place: 0,
                struck,
                pinned,
            },
            Err(refusal) => Reply {
                number: refusal.number(),
                place: refusal.place(),
                struck: 0,
                pinned: 0,
            },
        }
    }
}

// Confirms the form, or refuses it and leaves the buffers as they were.
#[unsafe(no_mangle)]
pub extern "C" fn wiring_filter(
    image: &[u8],
    form: &mut [u8],
    wiring: &mut [u8],
    segments: &mut [u16],
) -> Reply
    ensures { FilterReplies image.now form.old wiring.old segments.old result form.new wiring.new segments.new }
{
    filter::filter(image, form, wiring, segments).into()
}

// Applies one amendment, three numbers, to the form; or refuses it and leaves the buffers as they were.
#[unsafe(no_mangle)]
pub extern "C" fn wiring_amend(
    image: &[u8],
    kind: u16,
    a: u16,
    b: u16,
    form: &mut [u8],
    wiring: &mut [u8],
    segments: &mut [u16],
) -> Reply
    ensures { AmendReplies image.now kind a b form.old wiring.old segments.old result form.new wiring.new segments.new }
{
    amend::amend(image, kind, a, b, form, wiring, segments).into()
}
