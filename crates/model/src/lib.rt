// What the questions of the planner mean: assignments, fronts, cells, limits and plans, and the theorems on them.
#![tactic(auto)]

mod better;
mod cell;
mod choice;
mod plain;
mod point;
mod priced;
mod theorems;

pub use better::Better;
pub use cell::Cell;
pub use choice::Choice;
pub use point::Point;
pub use priced::PricedSheet;
pub use theorems::{
    assignments_are_all, better_bargains_are_shown, cells_stand_at_their_places,
    cheapest_is_cheapest, enough_memory_is_answered, equal_fronts_mean_same_bargains,
    front_is_where_costs_drop, front_lists_unbeaten_pairs, fronts_answer_limits,
    fronts_without_stages_or_quotes, greatest_times_are_quoted, least_costs_share_out_minutes,
    limits_are_shared_out, limits_give_best_pairs, plans_go_by_the_first_list,
    questions_keep_memory, refused_questions_alter_nothing, some_memory_suffices,
    stages_join_all_costs,
};
