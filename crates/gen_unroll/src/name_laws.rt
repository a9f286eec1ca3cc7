// What a unit relies on of the numbers of its signals.
ghost use Rattle.std.specs.Prelude.{◌≡◌, ℕ, Bool, false, List, map, length, Option, Ok};
ghost use Rattle.ls_text.specs.declared.name_id.NameId.{NameId};
ghost use Rattle.verilog_ast.specs.Items.{ModuleDeclaration, ModuleItem};
ghost use Rattle.gen_unroll.specs.Declarations.{item_names};
ghost use Rattle.gen_unroll.specs.Steps.{ModuleStep};
ghost use Rattle.gen_unroll.specs.Numbers.{SignalTable, module_table, in_block};
ghost use Rattle.gen_unroll.specs.Sound.{IsOrdered, AreApart, IsOneOf, has_name, widths_of};
ghost use Rattle.gen_unroll.specs.UnitLists.{registers, data_inputs, unit_signals};
ghost use Rattle.gen_unroll.specs.UnitReaches.{with_signals, hidden, unit_reach_in};
ghost use Rattle.gen_unroll.specs.declared.signal_table.ModuleSignals.{ModuleSignals};
ghost use Rattle.gen_unroll.specs.ModuleViews.{signals_in};
ghost use Rattle.gen_unroll.specs.Signals.{NamedSignal};
ghost use Rattle.typed_ir.specs.Cycles.{Signal};
ghost use Rattle.width_rules.specs.declared.writer.Writer.{Writer};
ghost use Rattle.width_rules.specs.Scopes.{Scope};

/// The numbers in the order of the declarations are those of all signals, each once; so registers and data inputs are signals, each once,
/// and no register is an input.
#[tactic(none)]
pub fn numbers_are_sound()
    ensures ordered { (m : ModuleDeclaration) (steps : List ModuleStep) (t : SignalTable) → module_table m steps ≡ Ok t → IsOrdered t }
    ensures apart { (settled : ℕ → Bool) (clock : Option NameId) (t : SignalTable) → IsOrdered t
        → AreApart (registers settled t) (data_inputs clock t.signals) (length t.signals) }
{}

/// A name that a signal of the module, or of a block, has stands for a signal of the module with the width that it has there, of 1 to 128
/// bits, whatever the name stood for before; so where a block is opened, each name that stands for a signal stands for one of the module with
/// its width, if this is so before, and so it is where the module begins; and these are the widths of the unit's signals.
#[tactic(none)]
pub fn names_fit()
    ensures scopes { (m : ModuleSignals) (w : ℕ → Writer) (b : Option ℕ) (scope : Scope) (name : ℕ)
        → (has_name name (in_block b (signals_in m)) ≡ false → IsOneOf (widths_of (signals_in m)) (scope name))
        → IsOneOf (widths_of (signals_in m)) (with_signals w (signals_in m) b scope name) }
    ensures opened { (m : ModuleSignals) (w : ℕ → Writer) (b : Option ℕ) (items : ModuleItem) (scope : Scope)
        → ((name : ℕ) → IsOneOf (widths_of (signals_in m)) (scope name))
        → (name : ℕ) → IsOneOf (widths_of (signals_in m)) (with_signals w (signals_in m) b (hidden items (item_names items scope)) name) }
    ensures began { (m : ModuleSignals) (w : ℕ → Writer) (d : ModuleDeclaration) (name : ℕ)
        → IsOneOf (widths_of (signals_in m)) ((unit_reach_in w (signals_in m) d).scope name) }
    ensures widths { (in_module : ℕ) (names : List NameId) (xs : List NamedSignal) → map (λ (s : Signal). s.width) (unit_signals in_module names xs) ≡ widths_of xs }
{}
