//! Which model is to be generated.
ghost use Rattle.std.specs.Prelude.{MatchOption};
ghost use Rattle.clap.specs.Words.{found_of, rows_of};
ghost use Rattle.cps_gen.specs.declared.family.Family.{Family as FamilyOf};
ghost use Rattle.cps_command.specs.declared.recipe.Recipe.{Recipe as RecipeOf};
ghost use Rattle.cps_command.specs.Numbers.{NamesFamily, IsRecipe};

use crate::options::{long_number_of, number_of};
use clap::ArgMatches;
use cps_gen::Family;

/// What a model is generated from.
#[derive(Debug, Clone, Copy, PartialEq, Eq)]
pub struct Recipe {
    pub family: Family,
    /// How large the model is, within the family's range.
    pub size: u32,
    /// The seed of its random numbers.
    pub seed: u64,
}

/// The family that is named, none where no family has the name.
fn family_of(matches: &ArgMatches<'_>) -> Option<Family>
    ensures { MatchOption result ((f : FamilyOf) → NamesFamily (rows_of (found_of matches.now)) f → ⊥)
        (NamesFamily (rows_of (found_of matches.now))) }
{
    match matches.get_str("family") {
        Some(name) => Family::of_name(name),
        None => None,
    }
}

/// The model that is named; `None` if there is no such family or the size is out of its range.
pub(crate) fn recipe_of(matches: &ArgMatches<'_>) -> Option<Recipe>
    ensures { MatchOption result ((r : RecipeOf) → IsRecipe (rows_of (found_of matches.now)) r → ⊥)
        (IsRecipe (rows_of (found_of matches.now))) }
{
    let Some(family) = family_of(matches) else {
        return None;
    };
    let Some(size) = number_of(matches, "size") else {
        return None;
    };
    let Some(seed) = long_number_of(matches, "seed") else {
        return None;
    };
    if family.is_in_range(size) {
        return Some(Recipe { family, size, seed });
    }
    None
}
