// Answers in C's terms: plain numbers, and structs of them.
ghost use Rattle.std.specs.Prelude.{◌≡◌, OnErr, IfOk};
ghost use Rattle.answer.specs.Numbers.{refusal_number};

use answer::{Answer, Refusal};

pub(crate) const DONE: u8 = 0;

// 0 for done, and otherwise the number of the refusal.
pub(crate) fn refusal_number(res: Result<Answer, Refusal>) -> u8
    ensures { result ≡ refusal_number res }
{
    match res {
        Ok(_) => DONE,
        Err(why) => why.number(),
    }
}

// The same, with what was answered left in C's memory; a refusal leaves what stood there.
pub(crate) fn give<T, O: From<T> + Drop>(res: Result<T, Refusal>, out: &mut O) -> u8
    ensures number { result ≡ refusal_number res }
    ensures given { IfOk res (λ x. O.from_gives x out.new) }
    ensures kept { OnErr res (out.new ≡ out.old) }
{
    match res {
        Ok(x) => {
            *out = O::from(x);
            DONE
        }
        Err(why) => why.number(),
    }
}
