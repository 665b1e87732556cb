// Bytes one after another in a lent slice, as many as it has room for, and a count of them all.
ghost use Rattle.std.specs.Prelude.{◌≡◌};

#[derive(Drop)]
pub(crate) struct Writer<'a> {
    pub(crate) reply: &'a mut [u8],
    pub(crate) at: usize,
}

impl Writer<'_> {
    ghost use Rattle.reply.specs.Laid.{next_byte, laying};

    // One byte more. No reply has more than 8,192; the test keeps the count from wrapping.
    #[tactic(auto, unfolding(crate::specs::Laid::next_byte))]
    pub(crate) fn byte(&mut self, b: u8)
        ensures { self.new ≡ next_byte self.old b }
    {
        if self.at < 8192 {
            slices::put(self.reply, self.at, b);
            self.at += 1;
        }
    }

    pub(crate) fn word(&mut self, w: &[u8])
        ensures { self.new ≡ laying w.now self.old }
    {
        for b in w {
            self.byte(*b);
        }
    }
}
