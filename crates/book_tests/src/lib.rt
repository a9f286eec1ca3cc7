// Tests of the book and of its verifications: tables of steps, whose answers are worked by hand, and one function that
// plays them.
//
// A case (`book_case`) is a list of steps (`book_step`), each with its answer (`book_answer`); `case_rows` and `history_rows` are the
// tables. `playing` plays a case: `calls` and `ticket_calls` make each step's call on the book, and tickets that are out (`held_ticket`)
// stand in two places (`held_tickets`, `place`). `case_tests` plays all cases, `history_tests` looks at histories alone.
// Of what stands below the book, `row_tests` has the smallest machine over rows, and `record_tests` rows of inputs and their record.
#![tactic(auto)]

#[cfg(test)]
mod book_answer;
#[cfg(test)]
mod book_case;
#[cfg(test)]
mod book_step;
#[cfg(test)]
mod calls;
#[cfg(test)]
mod case_rows;
#[cfg(test)]
mod case_tests;
#[cfg(test)]
mod held_ticket;
#[cfg(test)]
mod held_tickets;
#[cfg(test)]
mod history_rows;
#[cfg(test)]
mod history_tests;
#[cfg(test)]
mod place;
#[cfg(test)]
mod playing;
#[cfg(test)]
mod record_tests;
#[cfg(test)]
mod row_tests;
#[cfg(test)]
mod ticket_calls;
