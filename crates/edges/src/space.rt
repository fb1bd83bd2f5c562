// The space for standard input and for a plan.
ghost use Rattle.std.specs.Prelude.{◌≡◌, length};

// 262,144 zeros, for standard input.
pub fn of_input() -> [u8; 262144]
    ensures { 262144 ≡ length result }
{
    [0; 262144]
}

// 8,192 zeros, for a plan: the longest that is accepted has 5,208 bytes.
pub fn of_plan() -> [u8; 8192]
    ensures { 8192 ≡ length result }
{
    [0; 8192]
}
