// Sets of lines as the program holds them: line n is in a set where its bit n is 1.
ghost use Rattle.std.specs.Prelude.{◌≡◌};
ghost use Rattle.net.specs.Sets.{exchange};

// The set without the lines of `dark`, then with those of `light`.
pub fn exchanged(set: u64, dark: u64, light: u64) -> u64
    ensures { result ≡ exchange set dark light }
{
    set & !dark | light
}
