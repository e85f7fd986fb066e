// A pass over records by number, up to the first that fails its test.
ghost use Rattle.integrity.specs.Tests.{Testable, FirstFailing};

// The first of n numbers that fails; n where none does. The test of a number may rely on those before it to pass.
pub fn first_failing<F: Fn(usize) -> bool>(n: usize, test: F) -> usize
    requires { Testable (F.pre test) (F.post test) n }
    ensures { FirstFailing (F.post test) n result }
{
    for i in 0..n {
        if !test(i) {
            return i;
        }
    }
    n
}
