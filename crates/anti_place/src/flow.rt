ghost use Rattle.std.specs.Prelude.{◌≡◌};
ghost use Rattle.anti_place.specs.inner.Joined.{either, is_stop, left, then_flow, turned_flow};

/// What all ways through some statements together do to a doubt.
#[derive(Clone, Copy)]
pub enum Flow {
    /// No way comes out.
    Stops,
    /// It is not held behind them.
    Clears,
    /// It is held behind them where it was held before them.
    Keeps,
    /// It is held behind them.
    Sets,
}

impl Flow {
    /// What these statements do, and others behind them.
    pub fn then(self, next: Flow) -> Flow
        ensures { result ≡ then_flow self next }
    {
        match self {
            Flow::Stops => Flow::Stops,
            Flow::Keeps => next,
            _ => match next {
                Flow::Keeps => self,
                _ => next,
            },
        }
    }

    /// What is done where these statements are run or passed.
    pub fn or_passed(self) -> Flow
        ensures { result ≡ either Flow.Keeps self }
    {
        match self {
            Flow::Sets => Flow::Sets,
            _ => Flow::Keeps,
        }
    }

    /// What so many turns of these statements do.
    pub fn turned(self, count: u32) -> Flow
        ensures { result ≡ turned_flow count self }
    {
        match count {
            0 => Flow::Keeps,
            _ => self,
        }
    }

    /// Whether no way comes out.
    pub fn stops(self) -> bool
        ensures { result ≡ is_stop self }
    {
        matches!(self, Flow::Stops)
    }

    /// Whether the doubt is held behind these statements, where it is held before them or not.
    pub fn leaves(self, held: bool) -> bool
        ensures { result ≡ left self held }
    {
        match self {
            Flow::Stops => false,
            Flow::Clears => false,
            Flow::Keeps => held,
            Flow::Sets => true,
        }
    }
}
