// The guard over a text that is not yet known to be authentic.
ghost use Rattle.std.specs.Prelude.{◌≡◌, length, replicate};

// Holds the text. Unless it is released, the text is zeros after it, whichever way the function that holds it ends.
pub(crate) struct WipeGuard<'a> {
    pub(crate) text: &'a mut [u8],
}

impl Drop for WipeGuard<'_> {
    fn drop(self)
        ensures { self.exit.0.now ≡ replicate (length self.entry.text.now) 0 }
    {
        let WipeGuard { text } = self;
        text.fill(0);
    }
}

impl WipeGuard<'_> {
    // The text, to be read.
    pub(crate) fn text(&self) -> &[u8]
        ensures { result.now ≡ self.now.text.now }
    {
        self.text
    }

    // Lets the text go as it is.
    pub(crate) fn release(self)
        ensures { self.exit.0.now ≡ self.entry.text.now }
    {
        let WipeGuard { text: _ } = self;
    }
}
