// Which target of a block it is named by.
use crate::target_form::TargetForm;

/// The target by which a block is named, the first in the text: its number, from 0 on, among the targets of the sized statement, in which the
/// default of a case stands last, and the form in which it is shown.
#[derive(Clone, Copy, Debug, PartialEq, Eq)]
pub struct ShownTarget {
    pub number: usize,
    pub form: TargetForm,
}
