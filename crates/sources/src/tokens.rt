// A token of edition 1, held against the payloads of edition 2.
ghost use Rattle.std.specs.Prelude.{◌≡◌};
ghost use Rattle.carrying.specs.Recoding.{name_fits};

pub const PAYLOADS: u32 = 268435456;

const NAMES: u32 = 1048576;

// Has edition 2 room for the name of a functor? Other tokens have none.
pub fn is_named(x: u32) -> bool
    ensures { result ≡ name_fits x }
{
    x / PAYLOADS != 4 || x % PAYLOADS / 16 < NAMES
}
