// The allowance of look-ups.
ghost use Rattle.std.specs.Prelude.{◌≡◌, ◌≤◌};
ghost use Rattle.paper.specs.Traces.{allowed};

// The most look-ups that are ever allowed.
const MOST: u32 = 1024;

// The look-ups that an allowance comes to: more than 1,024 counts as 1,024.
pub fn cap(allowance: u32) -> u32
    ensures { (result ≡ allowed allowance) × (result ≤ 1024) }
{
    allowance.min(MOST)
}
