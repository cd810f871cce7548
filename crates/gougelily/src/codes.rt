// What the C functions answer: a number for what a public entry answered.
ghost use Rattle.std.specs.Prelude.{◌≡◌, ℕ, ◌^◌, ◌<◌, pos, Ok};
ghost use Rattle.std.specs.Result.{ForOk};
ghost use Rattle.strided.specs.Memory.{code_of};
ghost use Rattle.gougelily.specs.Codes.{Coded};

use layout::negated;
use strided::Refusal;

// What `f` makes of what is handed out, or the refusal's number negated.
pub fn code<T, F: FnOnce(T) -> i64>(answer: Result<T, Refusal>, f: F) -> i64
    requires { ForOk answer (F.pre f) }
    ensures { Coded (F.post f) answer result }
{
    answer.map_or_else(negated, f)
}

// 0, or the refusal's number negated.
pub fn code_of(answer: Result<(), Refusal>) -> i64
    ensures { result ≡ code_of (λ value. pos 0) answer }
{
    code(answer, |_| 0)
}

// The length of an output, or the refusal's number negated.
pub fn length_code(answer: Result<usize, Refusal>) -> i64
    requires { (n : ℕ) → answer ≡ Ok n → n < 2 ^ 63 }
    ensures { result ≡ code_of pos answer }
{
    code(answer, |n| n as i64)
}
