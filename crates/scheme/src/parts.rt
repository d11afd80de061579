ghost use Rattle.std.specs.Prelude.{◌≡◌};
ghost use Rattle.std.specs.Option.{option_map};
ghost use Rattle.scheme.specs.Each.{numbered};

// The item with a number, counted from 1.
pub(crate) fn item<T>(items: &[T], number: u16) -> Option<&T>
    ensures { option_map (λ x. x.now) result ≡ numbered items.now number }
{
    items.get((number as usize).checked_sub(1)?)
}
