// How a call's result reaches C: a number, a value beside it through a reference, and what the call gives.
ghost use Rattle.std.specs.Prelude.{◌≡◌};
ghost use Rattle.std.specs.Result.{result_unwrap_or};
ghost use Rattle.answers.specs.Refusal.{answer_of};
ghost use Rattle.telling.specs.Told.{number_in, value_in};

use answers::Refusal;

// Writes the value beside the number. Answers the number, 0 on success, and what is given: on a refusal `none` in its place.
pub fn tell<T: Drop>(r: Result<T, Refusal>, none: T, beside: &mut usize) -> (u32, T)
    ensures number { result.0 ≡ number_in (answer_of r) }
    ensures value { beside.new ≡ value_in (answer_of r) }
    ensures given { result.1 ≡ result_unwrap_or r none }
{
    match r {
        Ok(x) => {
            *beside = 0;
            (0, x)
        }
        Err(c) => {
            *beside = c.value();
            (c.number(), none)
        }
    }
}
