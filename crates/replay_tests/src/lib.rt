// Tests of the plain replay of a history of designs.
//
// They take histories (`histories`) as entries beside what is `given`: settings, rows, and versions that come (`coming`), of designs that add
// (`adders`). `history_tests` asks whether whole histories are right and over, `mark_tests` and `carry_tests` look at the marks behind entries,
// `load_tests`, `room_tests` and `ticket_tests` at versions, rooms and tickets, `ending_tests` at closes, `truth_tests` at marks of which one is wrong.
#![tactic(auto)]

#[cfg(test)]
mod adders;
#[cfg(test)]
mod carry_tests;
#[cfg(test)]
mod coming;
#[cfg(test)]
mod ending_tests;
#[cfg(test)]
mod given;
#[cfg(test)]
mod histories;
#[cfg(test)]
mod history_tests;
#[cfg(test)]
mod load_tests;
#[cfg(test)]
mod mark_tests;
#[cfg(test)]
mod room_tests;
#[cfg(test)]
mod ticket_tests;
#[cfg(test)]
mod truth_tests;
