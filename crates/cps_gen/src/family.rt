//! The families of models, their names, and how large their models may be.
ghost use Rattle.std.specs.Prelude.{◌≡◌, MatchOption};
ghost use Rattle.cps_gen.specs.Families.{family_name, is_in_range};
ghost use Rattle.cps_gen.specs.declared.family.Family.{Family as FamilyOf};

/// A family of models.
#[derive(Debug, Clone, Copy, PartialEq, Eq)]
pub enum Family {
    /// Which items to take, so that they are worth most and weigh at most half of what all weigh.
    Knapsack,
    /// When the steps of jobs begin on machines, so that the last ends soonest. As many jobs as machines.
    Jobshop,
    /// A cheapest tour through all nodes, by arcs between each two.
    Tour,
}

impl Family {
    /// The word for the family.
    pub fn name(self) -> &'static str
        ensures { result.now ≡ family_name self }
    {
        match self {
            Family::Knapsack => "knapsack",
            Family::Jobshop => "jobshop",
            Family::Tour => "tour",
        }
    }

    /// The family that a word names, none where it names none.
    pub fn of_name(name: &str) -> Option<Family>
        ensures { MatchOption result ((f : FamilyOf) → family_name f ≡ name.now → ⊥) (λ f. family_name f ≡ name.now) }
    {
        match name {
            "knapsack" => Some(Family::Knapsack),
            "jobshop" => Some(Family::Jobshop),
            "tour" => Some(Family::Tour),
            _ => None,
        }
    }

    /// Whether the family has a model of this size: a knapsack of 1 to 10,000 items, a job shop of 1 to 16 jobs,
    /// a tour of 2 to 60 nodes.
    pub fn is_in_range(self, size: u32) -> bool
        ensures { result ≡ is_in_range self size }
    {
        match self {
            Family::Knapsack => 1 <= size && size <= 10_000,
            Family::Jobshop => 1 <= size && size <= 16,
            Family::Tour => 2 <= size && size <= 60,
        }
    }
}
