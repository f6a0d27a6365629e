//! Laws of the definitions. The functions do nothing: each contract is the law.

ghost use Rattle.std.specs.Prelude.{◌≡◌, [], Some, List, map, slice_get, flat_map};
ghost use Rattle.std.specs.List.{All};
ghost use Rattle.psl_grammar.specs.declared.items.RawItem as declared_item;
ghost use Rattle.psl_grammar.specs.UnitView.{item_of};
ghost use Rattle.unit_rules.specs.Known.{nothing};
ghost use Rattle.unit_rules.specs.Fitting.{ItemFits};
ghost use Rattle.psl_grammar.specs.RawUnit.{RawItem, RawUnit};
ghost use Rattle.unit_rules.specs.declared.errors.UnitError.{UnitError};
ghost use Rattle.unit_rules.specs.Source.{Source};
ghost use Rattle.unit_rules.specs.Sites.{item_sites, unit_sites};
ghost use Rattle.unit_rules.specs.Faults.{faults_in, unit_faults};
ghost use Rattle.unit_rules.specs.Order.{AreInOrder, ComesBeforeAll};
ghost use Rattle.unit_rules.specs.Placed.{no_bodies, placed_items};
ghost use Rattle.unit_rules.specs.inner.Reckoned.{no_numbers, reckoned_items, prop_measure};

/// The first broken rule in the order of reading is the least by token, and at one token by the answers' list, where
/// the tokens of the unit's places ascend.
#[tactic(auto, using(crate::proofs::OrderLemmas::first_is_least))]
pub fn the_first_broken_rule_comes_before_all()
    ensures { (s : Source) (raw : RawUnit) (fault : UnitError) → AreInOrder (unit_sites raw)
        → slice_get (unit_faults s raw) 0 ≡ Some fault → ComesBeforeAll fault (unit_faults s raw) }
{}

/// Depth and nodes reckoned without names put in place are those of the directives with names put in place.
#[tactic(auto, using(crate::proofs::LimitLemmas::unit_measures))]
pub fn measures_need_no_names_in_place()
    ensures { (s : Source) (items : List RawItem) → reckoned_items s no_numbers items
        ≡ map (λ d. prop_measure d.body) (placed_items s no_bodies items) }
{}

/// Where no rule is broken, the numbers of each item fit the trees of a unit.
#[tactic(auto, using(crate::proofs::AllFit::unit_fits))]
pub fn numbers_fit_where_no_rule_is_broken()
    ensures { (s : Source) (items : List declared_item.RawItem)
        → faults_in s nothing (flat_map (λ item. item_sites (item_of item)) items) ≡ []
        → All (λ item. ItemFits s (item_of item)) items }
{}
