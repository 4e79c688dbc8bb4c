//! What follows from the definitions, each law the contract of a function that does nothing.

ghost use Rattle.std.specs.Prelude.{ℕ, List, Option};
ghost use Rattle.qmp_codec.specs.declared.nodes.BlockdevAdd.{BlockdevAdd};
ghost use Rattle.qmp_codec.specs.declared.nodes.Created.{Created};
ghost use Rattle.qmp_rules.specs.declared.told.Told.{Told};
ghost use Rattle.qmp_asks.specs.Asking.{Asking};
ghost use Rattle.qmp_rules.specs.Looks.{FileSight, add_told, create_told};
ghost use Rattle.qmp_rules.specs.Places.{HasLookPlace, HasPlace};
ghost use Rattle.qmp_rules.specs.Table.{RunTable};

/// Where an ask of the line or the table is not met, the refusal has the ask's place.
#[tactic(auto, using(crate::proofs::PlaceLemmas::has_place))]
pub fn refusals_have_the_place_of_their_ask()
    ensures { (t : RunTable) (told : Told) (asking : Asking) → HasPlace t told asking }
{}

/// What the store's files and its room decide has the place of the look at which it comes.
#[tactic(auto, using(crate::proofs::LookLemmas::add_has_place, crate::proofs::LookLemmas::create_has_place))]
pub fn told_refusals_have_the_place_of_their_look()
    ensures additions { (t : RunTable) (c : BlockdevAdd (List ℕ)) (sight : Option FileSight)
        → HasLookPlace (add_told t c sight).stopped }
    ensures creations { (c : Created (List ℕ)) (room : ℕ)
        → HasLookPlace (create_told c room).stopped }
{}
