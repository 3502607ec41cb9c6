//! What a server's main thread does itself, beside the threads that it starts: unlike them, it can be said what it leaves in what it
//! was lent.
ghost use Rattle.std.specs.Prelude.{◌≡◌};

/// Work that is done once, with what it may be given and what it makes of that.
pub trait Task {
    type Output;

    ghost can_run: { Self → Type 0 };

    ghost run_gives: { Self → Self.Output → Type 0 };

    /// Does the work, once, and ends it. Returns what the work makes, as the implementation's `run_gives` says.
    fn run(self) -> Self::Output
        requires { can_run self }
        ensures { run_gives self result };
}

/// A closure that is lent, and given back with its result.
#[derive(Drop)]
pub struct Lent<'a, F> {
    pub f: &'a mut F,
}

impl<'a, F: FnMut() -> A, A> Task for Lent<'a, F> {
    type Output = (&'a mut F, A);

    ghost can_run = { λ t. F.pre t.f.now };

    ghost run_gives = { λ t r. (r.0.ghost_name ≡ t.f.ghost_name) × F.step t.f.now r.1 r.0.now };

    fn run(self) -> (&'a mut F, A) {
        let Lent { f } = self;
        let a = f();
        (f, a)
    }
}

/// Does nothing. Ends the loan of a reference: a reference that was given back and is passed here is known to the borrow checker as the
/// one that was lent.
pub fn take_back<T>(x: &mut T)
    ensures { x.new ≡ x.old }
{}
