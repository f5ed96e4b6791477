//! Calls each lemma function once. A lemma function does nothing at run time.

use run_loop::examples::small_commands_report_environment;
use text_decimal::decimal::{doubles_are_read_back, doubles_have_one_text};
use text_decimal::texts::{
    decimals_are_by_lexemes, decimals_stay_on_one_line, texts_are_read_back,
};
use text_print::same_type::{the_same_has_the_same_fault, the_same_has_the_same_types};
use types_theory::equality::classes::{
    classes_are_of_equal_types, splits_keep_and_settle, stable_classes_are_equal,
};
use types_theory::equality::equal::{equal_types_mean_the_same, heads_are_found};
use types_theory::equality::sound_types::{heads_commute_with_instances, reached_types_are_sound};
use types_theory::equality::table_types::tables_are_lawful;
use types_theory::table::least_faults_have_least_ways;
use types_theory::typing::{checks_take_few_steps, searches_find_the_least};
use types_wellformed::accepted::{
    accepted_are_well_formed, accepted_types_are_sound, brackets_follow, names_follow, ranks_follow,
};

#[test]
fn laws_are_called() {
    searches_find_the_least();
    checks_take_few_steps();
    stable_classes_are_equal();
    splits_keep_and_settle();
    classes_are_of_equal_types();
    heads_are_found();
    equal_types_mean_the_same();
    reached_types_are_sound();
    heads_commute_with_instances();
    tables_are_lawful();
    least_faults_have_least_ways();
    the_same_has_the_same_types();
    the_same_has_the_same_fault();
    ranks_follow();
    names_follow();
    brackets_follow();
    accepted_are_well_formed();
    accepted_types_are_sound();
    small_commands_report_environment();
    doubles_have_one_text();
    doubles_are_read_back();
    decimals_are_by_lexemes();
    decimals_stay_on_one_line();
    texts_are_read_back();
}
