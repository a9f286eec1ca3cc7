// Operations whose faults, and the registers under them, are worked out by hand.
use crate::operation_row::OperationRow;
use crate::operation_row::OperationRow::{Create, Delete, Rename};

/// The registers before an edit: 10 of module 1, and in each of two instances of module 2 the registers 20 and 21. Each has the number of its
/// instance, its module, its name, its width and its initial value.
pub const BEFORE: &[(u32, u64, u64, u8, u128)] = &[
    (0, 1, 10, 8, 0),
    (1, 2, 20, 8, 0),
    (1, 2, 21, 8, 0),
    (2, 2, 20, 8, 0),
    (2, 2, 21, 8, 0),
];

/// Those behind it: 11 and 12 in place of 10, of eight and four bits, and 22 in place of 21: of eight bits in the one instance, and of four in
/// the other.
pub const BEHIND: &[(u32, u64, u64, u8, u128)] = &[
    (0, 1, 11, 8, 0),
    (0, 1, 12, 4, 0),
    (1, 2, 20, 8, 0),
    (1, 2, 22, 8, 0),
    (2, 2, 20, 8, 0),
    (2, 2, 22, 4, 0),
];

/// Operations between these, each with the first fault: its place, its code, its module and its register.
pub const FAULTS: &[(&[OperationRow], Option<(usize, u8, u64, u64)>)] = &[
    (&[], None),
    (
        &[
            Rename(1, 10, 11),
            Create(1, 12, 15),
            Delete(2, 21),
            Create(2, 22, 15),
        ],
        None,
    ),
    // each alone
    (&[Rename(1, 13, 11)], Some((0, 50, 1, 13))),
    (&[Delete(1, 13)], Some((0, 50, 1, 13))),
    (&[Delete(2, 10)], Some((0, 50, 2, 10))),
    (&[Rename(1, 10, 13)], Some((0, 51, 1, 13))),
    (&[Rename(1, 10, 22)], Some((0, 51, 1, 22))),
    (&[Create(1, 10, 0)], Some((0, 53, 1, 10))),
    (&[Delete(2, 20)], Some((0, 54, 2, 20))),
    (&[Create(1, 12, 16)], Some((0, 55, 1, 12))),
    (&[Create(2, 22, 16)], Some((0, 55, 2, 22))),
    // the same register twice: an old one, a new one, and both
    (&[Delete(1, 10), Delete(1, 10)], Some((1, 52, 1, 10))),
    (&[Rename(1, 10, 11), Delete(1, 10)], Some((1, 52, 1, 10))),
    (&[Create(1, 11, 9), Rename(1, 10, 11)], Some((1, 52, 1, 11))),
    (&[Create(1, 12, 9), Create(1, 12, 9)], Some((1, 52, 1, 12))),
    (
        &[Rename(1, 10, 11), Rename(1, 10, 11)],
        Some((1, 52, 1, 10)),
    ),
    // one behind another of the same operation: 52 first, then by number
    (
        &[Rename(1, 10, 11), Rename(1, 14, 11)],
        Some((1, 52, 1, 11)),
    ),
    (&[Delete(1, 10), Rename(1, 10, 13)], Some((1, 52, 1, 10))),
    (&[Create(1, 12, 1), Create(1, 12, 16)], Some((1, 52, 1, 12))),
    (&[Rename(1, 13, 14)], Some((0, 50, 1, 13))),
    (&[Delete(1, 11)], Some((0, 50, 1, 11))),
    // and of several operations: the first is judged without the later ones
    (&[Rename(1, 10, 13), Delete(1, 10)], Some((0, 51, 1, 13))),
    (
        &[Delete(2, 21), Create(2, 22, 16), Create(1, 13, 0)],
        Some((1, 55, 2, 22)),
    ),
    (
        &[Delete(2, 21), Create(1, 12, 1), Delete(2, 20)],
        Some((2, 54, 2, 20)),
    ),
];

/// The registers that have values: 10 and 13 of module 1 in the top, and 20 and 21 of module 2 in the instances. Their initial values don't
/// matter.
pub const OLD: &[(u32, u64, u64, u8, u128)] = &[
    (0, 1, 10, 8, 91),
    (1, 2, 20, 8, 92),
    (2, 2, 20, 8, 93),
    (1, 2, 21, 4, 4),
    (0, 1, 13, 8, 95),
];

/// What they have.
pub const OLD_VALUES: &[u128] = &[200, 171, 18, 9, 77];

/// The registers that take: 10 goes on, 20 has four bits in place of eight and 21 eight in place of four; 103 wasn't there, module 3 wasn't in
/// 101, and 12 and 22 are new.
pub const NEW: &[(u32, u64, u64, u8, u128)] = &[
    (0, 1, 10, 8, 1),
    (2, 2, 20, 4, 2),
    (2, 2, 21, 8, 3),
    (1, 2, 20, 8, 4),
    (2, 3, 20, 8, 5),
    (0, 1, 12, 8, 6),
    (2, 2, 22, 8, 7),
];

/// Operations, each with what these take. 171 is 160 + 11, and 300 is 256 + 44.
pub const TAKEN: &[(&[OperationRow], &[u128])] = &[
    (&[], &[200, 11, 9, 4, 5, 6, 7]),
    // created, where the old design has the name too, with a value that is cut, and by the first of two
    (&[Create(1, 12, 33)], &[200, 11, 9, 4, 5, 33, 7]),
    (&[Create(1, 10, 33)], &[33, 11, 9, 4, 5, 6, 7]),
    (&[Create(1, 12, 300)], &[200, 11, 9, 4, 5, 44, 7]),
    (
        &[Create(1, 12, 33), Create(1, 12, 34)],
        &[200, 11, 9, 4, 5, 33, 7],
    ),
    // in each instance of a module
    (&[Create(2, 20, 3)], &[200, 3, 9, 3, 5, 6, 7]),
    // renamed to a new name, and to one that the old design has
    (&[Rename(1, 10, 12)], &[200, 11, 9, 4, 5, 200, 7]),
    (&[Rename(1, 13, 10)], &[77, 11, 9, 4, 5, 6, 7]),
    (&[Rename(2, 20, 22)], &[200, 11, 9, 4, 5, 6, 171]),
    (&[Rename(2, 20, 21)], &[200, 11, 171, 4, 5, 6, 7]),
    (
        &[Rename(1, 13, 12), Rename(1, 10, 12)],
        &[200, 11, 9, 4, 5, 77, 7],
    ),
    // created before renamed, whatever their order
    (
        &[Rename(1, 10, 12), Create(1, 12, 33)],
        &[200, 11, 9, 4, 5, 33, 7],
    ),
    // the old name isn't there: of this path, of this module, anywhere
    (&[Rename(2, 21, 20)], &[200, 9, 9, 4, 5, 6, 7]),
    (&[Rename(1, 20, 10)], &[200, 11, 9, 4, 5, 6, 7]),
    (&[Rename(2, 23, 20)], &[200, 11, 9, 4, 5, 6, 7]),
    // created: no name of the new design, in no module of it
    (&[Create(1, 14, 33)], &[200, 11, 9, 4, 5, 6, 7]),
    (&[Create(4, 10, 33)], &[200, 11, 9, 4, 5, 6, 7]),
    // deleted: nothing is taken from the old one, or the new design has it still
    (&[Delete(1, 13)], &[200, 11, 9, 4, 5, 6, 7]),
    (&[Delete(2, 21)], &[200, 11, 9, 4, 5, 6, 7]),
];

/// Operations, each with what the old registers take themselves, which have the same slots.
pub const KEPT: &[(&[OperationRow], &[u128])] = &[
    (&[], &[200, 171, 18, 9, 77]),
    (&[Create(2, 20, 3)], &[200, 3, 3, 9, 77]),
    (&[Rename(1, 13, 10)], &[77, 171, 18, 9, 77]),
    // 171 is 160 + 11
    (&[Rename(2, 20, 21)], &[200, 171, 18, 11, 77]),
];
