// A choice between two numbers that can be compiled without a branch.
ghost use Rattle.std.specs.Prelude.{◌≡◌, cond};

// A function, since an `if` where a number is worked out would split its proof, and the pass, in two.
pub fn choose(test: bool, a: u32, b: u32) -> u32
    ensures { result ≡ cond test a b }
{
    if test { a } else { b }
}
