// What a module that was visited is again, what its ports are among its signals, and where the units of its jobs stand.
ghost use Rattle.std.specs.Prelude.{◌≡◌, ℕ, true, List, [], ◌++◌, length, filter, map, take, Option, Ok};
ghost use Rattle.std.specs.List.{All, AllZip};
ghost use Rattle.ls_text.specs.declared.name_id.NameId.{NameId};
ghost use Rattle.typed_ir.specs.declared.constant.Const.{Const};
ghost use Rattle.typed_ir.specs.Cycles.{Signal};
ghost use Rattle.verilog_ast.specs.declared.module.Module.{Module};
ghost use Rattle.verilog_ast.specs.declared.module_body.ModuleBody.{ModuleBody};
ghost use Rattle.verilog_ast.specs.Items.{ModuleDeclaration};
ghost use Rattle.verilog_ast.specs.Views.{declaration_of, declarations_of};
ghost use Rattle.typed_ir.specs.declared.instance.Instance.{Instance};
ghost use Rattle.typed_ir.specs.declared.port_shape.PortShape.{PortShape};
ghost use Rattle.typed_ir.specs.declared.unit_parts.UnitParts.{UnitParts};
ghost use Rattle.typed_ir.specs.Shapes as shapes;
ghost use Rattle.gen_unroll.specs.Overriding.{constant_sorts, overrides_of};
ghost use Rattle.gen_unroll.specs.Reaches.{Reach};
ghost use Rattle.gen_unroll.specs.Steps.{ModuleStep, blocks_in};
ghost use Rattle.gen_unroll.specs.Unrolled.{State, unrolled_module, turn_limit, steps_told};
ghost use Rattle.gen_unroll.specs.Values.{ConstantValue, constant_of};
ghost use Rattle.module_names.specs.Modules.{header_ports};
ghost use Rattle.elaborate.specs.declared.limits.Limits.{Limits};
ghost use Rattle.elaborate.specs.Checks.{Checked, check_steps, checked};
ghost use Rattle.elaborate.specs.Elaborated.{Standing, elaborated};
ghost use Rattle.elaborate.specs.Ports.{port_outlines};
ghost use Rattle.elaborate.specs.Trees.{tree};
ghost use Rattle.elaborate.specs.TreeViews.{instance_view};
ghost use Rattle.elaborate.specs.Views.{port_of};
ghost use Rattle.elaborate.specs.Visits.{Visited, visited};
ghost use Rattle.gen_unroll.specs.Numbers.{SignalTable, module_table};
ghost use Rattle.gen_unroll.specs.UnitLists.{unit_signals, data_inputs};
ghost use Rattle.module_registry.specs.declared.build_job.BuildJob.{BuildJob};
ghost use Rattle.unit_jobs.specs.BlockNames.{texts_within};
ghost use Rattle.unit_jobs.specs.Jobs.{InstanceJob, tree_jobs};
ghost use Rattle.unit_jobs.specs.JobViews.{job_view};
ghost use Rattle.version_swap.specs.BlockSignals.{is_within_block, called};
ghost use Rattle.version_swap.specs.InstanceModules.{IsVisited};
ghost use Rattle.version_swap.specs.JobUnits.{IsUnitOf};
ghost use Rattle.version_swap.specs.Leading.{AreLeading};
ghost use Rattle.version_swap.specs.Outer.{outer_values, are_ports_outside};
ghost use Rattle.version_swap.specs.OuterTrees.{has_outer_ports_alone};

/// Under the values that a visit found of its parameters, a module is unrolled to the steps of that visit; in the code's trees, and among
/// these steps, ports are declared outside of generate blocks alone.
#[tactic(none)]
pub fn visited_modules_may_be_unrolled_again()
    ensures trees { (body : ModuleBody) → has_outer_ports_alone (declaration_of body) ≡ true }
    ensures ports { (limit : ℕ) (vs : List (Option ConstantValue)) (m : ModuleDeclaration) → has_outer_ports_alone m ≡ true
        → are_ports_outside 0 (unrolled_module limit vs m).said ≡ true }
    ensures again { (limit : ℕ) (vs : List (Option ConstantValue)) (m : ModuleDeclaration) (cs : List Const) (st : State)
        → has_outer_ports_alone m ≡ true → (unrolled_module limit vs m).ending ≡ Ok st
        → map constant_of cs ≡ outer_values 0 (unrolled_module limit vs m).said
        → (unrolled_module limit (overrides_of (constant_sorts m) cs) m).said ≡ (unrolled_module limit vs m).said }
    ensures parameters { (ms : List ModuleDeclaration) (here : Reach) (steps : List ModuleStep) (c end : Checked)
        → check_steps ms here steps c ≡ Ok end → end.parameters ≡ c.parameters ++ outer_values (length here.blocks) steps }
    ensures visits { (turns : ℕ) (ms : List ModuleDeclaration) (most : Option ℕ) (m : ModuleDeclaration) (vs : List (Option ConstantValue))
        (clock : Option ℕ) (v : Visited) (cs : List Const)
        → has_outer_ports_alone m ≡ true → visited turns ms most m vs clock ≡ Ok v → map constant_of cs ≡ v.checks.parameters
        → steps_told (unrolled_module turns (overrides_of (constant_sorts m) cs) m) ≡ Ok (unrolled_module turns vs m).said }
{}

/// A module that was checked, and that declares ports outside of generate blocks alone, has a table of its signals. It begins with the ports
/// of the header, one by one with their names, widths, signs and directions, and no signal behind them is an input; so its unit's first
/// widths and its data inputs are those of the ports.
#[tactic(none)]
pub fn ports_come_first()
    ensures table { (turns : ℕ) (ms : List ModuleDeclaration) (m : ModuleDeclaration) (vs : List (Option ConstantValue)) (c : Checked)
        → checked turns ms m vs ≡ Ok c → are_ports_outside 0 (unrolled_module turns vs m).said ≡ true
        → (t : SignalTable) × (module_table m (unrolled_module turns vs m).said ≡ Ok t) }
    ensures ports { (turns : ℕ) (ms : List ModuleDeclaration) (m : ModuleDeclaration) (vs : List (Option ConstantValue)) (c : Checked)
        (t : SignalTable) → checked turns ms m vs ≡ Ok c → are_ports_outside 0 (unrolled_module turns vs m).said ≡ true
        → module_table m (unrolled_module turns vs m).said ≡ Ok t → AreLeading (port_outlines (header_ports m.ports) c.declared) t.signals }
    ensures widths { (turns : ℕ) (ms : List ModuleDeclaration) (m : ModuleDeclaration) (vs : List (Option ConstantValue)) (c : Checked)
        (t : SignalTable) (k : ℕ) (names : List NameId) (ports : List PortShape)
        → checked turns ms m vs ≡ Ok c → are_ports_outside 0 (unrolled_module turns vs m).said ≡ true
        → module_table m (unrolled_module turns vs m).said ≡ Ok t → map port_of ports ≡ port_outlines (header_ports m.ports) c.declared
        → take (length ports) (map (λ (x : Signal). x.width) (unit_signals k names t.signals)) ≡ map (λ (p : PortShape). p.width) ports }
    ensures inputs { (turns : ℕ) (ms : List ModuleDeclaration) (m : ModuleDeclaration) (vs : List (Option ConstantValue)) (c : Checked)
        (t : SignalTable) (clock : Option NameId) (ports : List PortShape)
        → checked turns ms m vs ≡ Ok c → are_ports_outside 0 (unrolled_module turns vs m).said ≡ true
        → module_table m (unrolled_module turns vs m).said ≡ Ok t → map port_of ports ≡ port_outlines (header_ports m.ports) c.declared
        → data_inputs clock t.signals ≡ shapes.data_inputs clock 0 ports }
{}

/// Each instance of a design has what a visit of its module found, so each instance of its tree has a job. The units that building gives for
/// these jobs stand in the tree: each has the ports of its instance first and as its data inputs, and the shapes of the instances in it. The
/// names of a job are those of its module's signals within generate blocks, in the order of their numbers.
#[tactic(none)]
pub fn units_stand_in_their_tree()
    ensures visits { (l : Limits) (ms : List ModuleDeclaration) (top clock : ℕ) (all : List Standing) → elaborated l ms top clock ≡ Ok all
        → All (IsVisited l.turns ms) all }
    ensures jobs { (l : Limits) (texts known others : List (List ℕ)) (ms : List Module) (top clock : ℕ) (xs : List Instance)
        → l.turns ≡ turn_limit → tree l texts (declarations_of ms) top clock ≡ Ok (map (instance_view known) xs)
        → (jobs : List InstanceJob) × (tree_jobs others ms xs ≡ Ok jobs) }
    ensures units { (l : Limits) (texts known others words : List (List ℕ)) (ms : List Module) (top clock : ℕ) (xs : List Instance)
        (jobs : List InstanceJob) (js : List BuildJob) (us : List UnitParts)
        → l.turns ≡ turn_limit → tree l texts (declarations_of ms) top clock ≡ Ok (map (instance_view known) xs)
        → tree_jobs others ms xs ≡ Ok jobs → map (job_view words) js ≡ jobs → AllZip IsUnitOf js us → shapes.AreOf xs 0 xs us }
    ensures names { (m : ModuleDeclaration) (steps : List ModuleStep) (t : SignalTable) (texts : List (List ℕ))
        → are_ports_outside 0 steps ≡ true → module_table m steps ≡ Ok t
        → texts_within texts (blocks_in steps) [] steps ≡ map (called texts (blocks_in steps)) (filter is_within_block t.signals) }
{}
