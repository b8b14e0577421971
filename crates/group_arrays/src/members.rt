// The variables of a group.
ghost use Rattle.std.specs.Prelude.{◌≤◌, ◌<◌};

// How many there are, and which variable each is, by its new number; zero behind the last.
#[derive(Clone, Copy)]
pub struct Members {
    pub size: usize,
    pub old: [u8; 32],
    pub ghost most: { size ≤ 32 },
}

impl Members {
    ghost use Rattle.std.specs.Prelude.{◌≡◌};
    ghost use Rattle.group_arrays.specs.Members.{old_in};

    // The variable with new number t.
    #[tactic(auto, unfolding(crate::specs::Members::old_in))]
    pub fn old(&self, t: usize) -> usize
        requires { t < 32 }
        ensures { (result ≡ old_in self.now t) × (result < 32) }
    {
        self.old[t] as usize % 32
    }
}
