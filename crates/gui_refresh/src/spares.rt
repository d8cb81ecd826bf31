//! The buffers that are free.
ghost use Rattle.std.specs.Prelude.{◌≡◌, ◌+◌, ◌<◌, ◌≤◌, MatchOption};

use gui_color::DrawBuf;
use std::marker::Model;

/// At most two buffers, for the same number of pixels.
#[derive(Drop)]
pub(crate) struct Spares {
    limit: u32,
    one: Option<DrawBuf>,
    other: Option<DrawBuf>,
}

impl Model for Spares {
    ghost use Rattle.std.specs.Prelude.{◌+◌, is_some};
    ghost use Rattle.gui_refresh.specs.Spares.{FreeBuffers, HasLimit};
    ghost use Rattle.owed_defs.specs.Progress.{one_if};

    ghost Value = { FreeBuffers };

    ghost view = { λ s. record {
      count = one_if (is_some s.one) + one_if (is_some s.other);
      limit = s.limit;
    } };

    ghost invariant = { λ s. HasLimit s.limit s.one × HasLimit s.limit s.other };
}

impl Spares {
    /// Two buffers of this limit.
    pub(crate) fn new(one: DrawBuf, other: DrawBuf, limit: u32) -> Spares
        requires one { one.limit ≡ limit }
        requires other { other.limit ≡ limit }
        ensures { result ≡ record { count = 2; limit = limit } }
    {
        Spares {
            limit,
            one: Some(one),
            other: Some(other),
        }
    }

    /// Takes a buffer. `None` if none is free.
    pub(crate) fn take(&mut self) -> Option<DrawBuf>
        ensures none { MatchOption result (self.old.count ≡ 0)
            (λ buf. (buf.limit ≡ self.old.limit) × (self.old.count ≡ self.new.count + 1)) }
        ensures same { MatchOption result (self.new ≡ self.old) (λ buf. self.new.limit ≡ self.old.limit) }
    {
        match self.one.take() {
            Some(buf) => Some(buf),
            None => self.other.take(),
        }
    }

    /// Puts a buffer back.
    pub(crate) fn put(&mut self, buf: DrawBuf)
        requires room { self.old.count < 2 }
        requires limit { buf.limit ≡ self.old.limit }
        ensures { self.new ≡ record self.old { count = self.old.count + 1 } }
    {
        if self.one.is_none() {
            self.one = Some(buf);
        } else {
            self.other = Some(buf);
        }
    }
}
