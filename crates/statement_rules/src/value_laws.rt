// What values of declarations are.
ghost use Rattle.std.specs.Prelude.{◌≡◌, true, List, [], ◌∷◌};
ghost use Rattle.typed_ir.specs.Orders.{Each};
ghost use Rattle.width_rules.specs.Scopes.{Scope};
ghost use Rattle.statement_rules.specs.Drives.{assign_faults};
ghost use Rattle.statement_rules.specs.DeclaredValues.{DeclaredValue, is_net_value, as_assignment, declaration_faults};

/// Where a declaration has no fault, each net with a value is driven by a continuous assignment that has none.
#[tactic(none)]
pub fn values_are_drives()
    ensures { (scope : Scope) (xs : List DeclaredValue) → declaration_faults scope xs ≡ []
        → Each (λ x. is_net_value scope x ≡ true → assign_faults scope (as_assignment x ∷ []) ≡ []) xs }
{}
