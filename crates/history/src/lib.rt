// Histories of a register's calls, and the theorems about them. The functions do nothing: each has a theorem for its contract.
#![tactic(auto)]

ghost use Rattle.history.specs.Theorems.{WellMadeRunsAreWellFormed, RespectfulOrdersExplain, SerializationOrdersExplain, AscendingRowsAreOrders, PlacesGiveAnOrder};
ghost use Rattle.history.specs.Theorems.{MovedBoundsAgree, BoundsAreOpaque, ViewsAgree, ViewsAreOpaque};
ghost use Rattle.history.specs.Theorems.{AnswersDoNotMatter, ViewsArePermissive, PositionsAreAccepted, ScriptsArePermissive, PositionsMakeAScript};
ghost use Rattle.history.specs.Theorems.{ChosenRunsAreViewRuns, ChosenPlacesGiveAnOrder};
ghost use Rattle.history.specs.Examples.{CrossedReadsHaveNoOrder, OvertakingHasAnOrder, ReadSkewIsNotExplained, RealTimeIsKept};

// What serial execution explains

pub fn well_made_runs_are_well_formed<V>()
    ensures { WellMadeRunsAreWellFormed V }
{}

pub fn respectful_orders_explain<V>()
    ensures { RespectfulOrdersExplain V }
{}

pub fn serialization_orders_explain<V>()
    ensures { SerializationOrdersExplain V }
{}

pub fn ascending_rows_are_orders<V>()
    ensures { AscendingRowsAreOrders V }
{}

pub fn places_give_an_order<V>()
    ensures { PlacesGiveAnOrder V }
{}

// Opacity

pub fn moved_bounds_agree<V>()
    ensures { MovedBoundsAgree V }
{}

pub fn bounds_are_opaque<V>()
    ensures { BoundsAreOpaque V }
{}

pub fn views_agree<V>()
    ensures { ViewsAgree V }
{}

pub fn views_are_opaque<V>()
    ensures { ViewsAreOpaque V }
{}

// Permissiveness

pub fn answers_do_not_matter<V>()
    ensures { AnswersDoNotMatter V }
{}

pub fn views_are_permissive<V>()
    ensures { ViewsArePermissive V }
{}

pub fn positions_are_accepted<V>()
    ensures { PositionsAreAccepted V }
{}

pub fn scripts_are_permissive<V>()
    ensures { ScriptsArePermissive V }
{}

pub fn positions_make_a_script<V>()
    ensures { PositionsMakeAScript V }
{}

// Any chooser that keeps the law

pub fn chosen_runs_are_view_runs<V>()
    ensures { ChosenRunsAreViewRuns V }
{}

pub fn chosen_places_give_an_order<V>()
    ensures { ChosenPlacesGiveAnOrder V }
{}

// Examples

pub fn crossed_reads_have_no_order()
    ensures { CrossedReadsHaveNoOrder }
{}

pub fn overtaking_has_an_order()
    ensures { OvertakingHasAnOrder }
{}

pub fn read_skew_is_not_explained()
    ensures { ReadSkewIsNotExplained }
{}

pub fn real_time_is_kept()
    ensures { RealTimeIsKept }
{}
