// Text that is not shown before it is released.
ghost use Rattle.std.specs.Prelude.{◌≡◌};
ghost use Rattle.session.specs.Sessions.{shown};

// Bytes that are zeroed when the guard is dropped, unless they were released. With an `Option` that a release empties, the contract of `drop` could not say what released bytes are.
pub struct Guard<'a> {
    pub text: &'a mut [u8],
    pub released: bool,
}

impl Drop for Guard<'_> {
    fn drop(self)
        ensures { self.exit.0.now ≡ shown self.entry.released self.entry.text.now }
    {
        let Guard { text, released } = self;
        if !released {
            text.fill(0);
        }
    }
}
