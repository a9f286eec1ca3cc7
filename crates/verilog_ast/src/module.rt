// Modules.
use crate::module_body::ModuleBody;
use ls_text::TextBytes;

/// A module, and its tokens from `module` to `endmodule` in their one spelling.
///
/// The spelling separates tokens by single spaces. Words, reserved words and operators stand as written; a number has
/// its size, `'`, an `s` where it is signed, `h` and its value in hexadecimal; a literal with don't-cares is binary.
#[derive(Drop)]
pub struct Module {
    pub body: ModuleBody,
    pub spelling: TextBytes,
}
