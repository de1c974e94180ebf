// Scripts of calls, and what they must print: `mixed` calls of every kind at random; `refusals` each refusal of each call that
// calls alone can bring about, in its order; `rows_of_old_epochs` rows of another epoch, or of a card that does not lead, which
// do not count, and messages and a diff of an old leader that are passed over; `empty_diff` an empty diff under which an entry
// goes that reached nobody; `longer_log` a card that has accepted more and stands itself until the others join it; `full_log`
// a full log, and a diff that is longer than a lane; `lines_of_text` lines that are no calls.
mod empty_diff_3_board;
mod empty_diff_5;
mod empty_diff_7_board;
mod empty_diff_box;
mod full_log_3;
mod full_log_7_board;
mod full_log_box;
mod lines_of_text;
mod lines_of_text_board;
mod longer_log_3_board;
mod longer_log_5;
mod longer_log_7_board;
mod longer_log_box;
mod mixed_01;
mod mixed_02;
mod mixed_03;
mod mixed_04;
mod mixed_05;
mod mixed_06;
mod mixed_07;
mod mixed_08;
mod mixed_09;
mod mixed_10;
mod mixed_11;
mod mixed_12;
mod mixed_13;
mod mixed_14;
mod mixed_15;
mod mixed_16;
mod mixed_17;
mod mixed_18;
mod refusals_3;
mod refusals_5_board;
mod refusals_7;
mod refusals_box_board;
mod rows_of_old_epochs_3_board;
mod rows_of_old_epochs_5;
mod rows_of_old_epochs_7_board;
mod rows_of_old_epochs_box;

// A script, the arguments that choose its rack, and what is printed.
#[derive(Clone, Copy)]
pub(crate) struct Stored {
    pub(crate) rack: &'static str,
    pub(crate) lines: &'static str,
    pub(crate) prints: &'static str,
}

pub(crate) const ALL: [(&str, Stored); 39] = [
    ("mixed_01", mixed_01::SCRIPT),
    ("mixed_02", mixed_02::SCRIPT),
    ("mixed_03", mixed_03::SCRIPT),
    ("mixed_04", mixed_04::SCRIPT),
    ("mixed_05", mixed_05::SCRIPT),
    ("mixed_06", mixed_06::SCRIPT),
    ("mixed_07", mixed_07::SCRIPT),
    ("mixed_08", mixed_08::SCRIPT),
    ("mixed_09", mixed_09::SCRIPT),
    ("mixed_10", mixed_10::SCRIPT),
    ("mixed_11", mixed_11::SCRIPT),
    ("mixed_12", mixed_12::SCRIPT),
    ("refusals_3", refusals_3::SCRIPT),
    ("refusals_5_board", refusals_5_board::SCRIPT),
    ("refusals_7", refusals_7::SCRIPT),
    ("refusals_box_board", refusals_box_board::SCRIPT),
    (
        "rows_of_old_epochs_3_board",
        rows_of_old_epochs_3_board::SCRIPT,
    ),
    ("empty_diff_3_board", empty_diff_3_board::SCRIPT),
    ("longer_log_3_board", longer_log_3_board::SCRIPT),
    ("rows_of_old_epochs_5", rows_of_old_epochs_5::SCRIPT),
    ("empty_diff_5", empty_diff_5::SCRIPT),
    ("longer_log_5", longer_log_5::SCRIPT),
    (
        "rows_of_old_epochs_7_board",
        rows_of_old_epochs_7_board::SCRIPT,
    ),
    ("empty_diff_7_board", empty_diff_7_board::SCRIPT),
    ("longer_log_7_board", longer_log_7_board::SCRIPT),
    ("rows_of_old_epochs_box", rows_of_old_epochs_box::SCRIPT),
    ("empty_diff_box", empty_diff_box::SCRIPT),
    ("longer_log_box", longer_log_box::SCRIPT),
    ("full_log_3", full_log_3::SCRIPT),
    ("full_log_7_board", full_log_7_board::SCRIPT),
    ("full_log_box", full_log_box::SCRIPT),
    ("lines_of_text", lines_of_text::SCRIPT),
    ("lines_of_text_board", lines_of_text_board::SCRIPT),
    ("mixed_13", mixed_13::SCRIPT),
    ("mixed_14", mixed_14::SCRIPT),
    ("mixed_15", mixed_15::SCRIPT),
    ("mixed_16", mixed_16::SCRIPT),
    ("mixed_17", mixed_17::SCRIPT),
    ("mixed_18", mixed_18::SCRIPT),
];
