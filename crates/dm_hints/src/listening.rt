//! A sink that passes on what it takes, and listens.
ghost use Rattle.std.specs.Prelude.{◌≡◌};

use crate::hearing::Heard;
use dm_outside::{Failed, Sink};
use std::marker::Model;

/// A sink that hands each write to another, unchanged, and hears what that took.
#[derive(Drop)]
pub struct Listener<K: Sink> {
    sink: K,
    heard: Heard,
}

/// It is seen as the sink that it hands on to.
impl<K: Sink> Model for Listener<K> {
    ghost Value = { K };

    ghost view = { λ listener. listener.sink };
}

impl<K: Sink> Listener<K> {
    /// A listener that hands on to this sink.
    pub fn new(sink: K) -> Listener<K>
        ensures { result ≡ sink }
    {
        Listener {
            sink,
            heard: Heard::new(),
        }
    }

    /// What was heard.
    pub(crate) fn heard(&self) -> &Heard {
        &self.heard
    }
}

impl<K: Sink> Sink for Listener<K> {
    ghost taken = { λ sink. K.taken sink };

    ghost faults = { λ sink. K.faults sink };

    fn write(&mut self, bytes: &[u8]) -> Result<usize, Failed> {
        let answer = self.sink.write(bytes);
        if let Ok(count) = answer {
            self.heard.hear_all(bytes.get(..count).unwrap_or_default());
        }
        answer
    }
}
