//! What a past says, as its users define it.
ghost use Rattle.std.specs.Prelude.{List};

/// What may come next in a past.
pub trait Story<E> {
    // The entry may be added after these.
    ghost goes_on: { List E → E → Type 0 };
}

/// Which entry a value is recorded as.
pub trait Told<X, E> {
    ghost entry: { X → E };
}
