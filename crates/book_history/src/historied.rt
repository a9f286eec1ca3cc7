// What has a history.
ghost use Rattle.book_history.specs.Journal.{Journal};

/// Its history is the list of its entries with all that belongs to them, and its settings, which no call changes.
pub trait Historied: Drop + Send {
    type Machine;

    type Row;

    type Ops;

    ghost history: { Self → Journal Self.Machine Self.Row Self.Ops };
}
