// Trees of modules and their items as text: nested brackets with a node's name first, and no places.
use crate::tree_text::TreeText;
use crate::written::{expression, statement, target};
use verilog_ast::{
    Branch, Child, Children, Connections, Expr, GenerateItem, HeaderParameter, HeaderPort,
    Identifier, Instance, Item, ModuleBody, Parameter, PlainItem, PortNet, Ports, RegVariable,
    Shape, Variable,
};

// `signed` and `(range high low)`, where they are written.
fn shape(out: &mut TreeText<'_>, s: &Shape) {
    if s.signed {
        out.word(b"signed");
    }
    if let Some(range) = &s.range {
        out.open(b"range");
        expression(out, range.high.get());
        expression(out, range.low.get());
        out.close();
    }
}

fn net(out: &mut TreeText<'_>, n: PortNet) {
    match n {
        PortNet::Nothing => {}
        PortNet::Wire => out.word(b"wire"),
        PortNet::Reg => out.word(b"reg"),
    }
}

fn names(out: &mut TreeText<'_>, all: &[Identifier]) {
    for n in all {
        out.name(n.name);
    }
}

// A name, or `(= name value)`.
fn declared(out: &mut TreeText<'_>, id: Identifier, value: &Option<Child<Expr>>) {
    match value {
        Some(x) => {
            out.open(b"=");
            out.name(id.name);
            expression(out, x.get());
            out.close()
        }
        None => out.name(id.name),
    }
}

fn variable(out: &mut TreeText<'_>, v: &Variable) {
    declared(out, v.name, &v.value)
}

fn variables(out: &mut TreeText<'_>, all: &[Variable]) {
    for v in all {
        variable(out, v);
    }
}

// Each name, and `(addresses high low)` behind it where it has them.
fn reg_variables(out: &mut TreeText<'_>, all: &[RegVariable]) {
    for v in all {
        declared(out, v.name, &v.value);
        if let Some(range) = &v.addresses {
            out.open(b"addresses");
            expression(out, range.high.get());
            expression(out, range.low.get());
            out.close();
        }
    }
}

fn parameter(out: &mut TreeText<'_>, p: &Parameter) {
    out.open(b"=");
    out.name(p.name.name);
    expression(out, p.value.get());
    out.close()
}

fn parameters(out: &mut TreeText<'_>, all: &[Parameter]) {
    for p in all {
        parameter(out, p);
    }
}

// `-` where there is no expression.
fn optional(out: &mut TreeText<'_>, x: &Option<Child<Expr>>) {
    match x {
        Some(x) => expression(out, x.get()),
        None => out.word(b"-"),
    }
}

// `(. name value)` for each by name, the values alone by order.
fn connections(out: &mut TreeText<'_>, c: &Connections) {
    match c {
        Connections::Named(all) => {
            for c in all.as_slice() {
                out.open(b".");
                out.name(c.name.name);
                optional(out, &c.value);
                out.close();
            }
        }
        Connections::Ordered(all) => {
            for c in all.as_slice() {
                optional(out, &c.value);
            }
        }
    }
}

fn instances(out: &mut TreeText<'_>, all: &[Instance]) {
    for i in all {
        out.open(b"of");
        out.name(i.name.name);
        connections(out, &i.connections);
        out.close();
    }
}

// What stands behind the name of a plain item.
fn plain_item(out: &mut TreeText<'_>, item: &PlainItem) {
    match item {
        PlainItem::Wire(_, s, all) => {
            out.open(b"wire");
            shape(out, s);
            variables(out, all.as_slice());
        }
        PlainItem::Reg(_, s, all) => {
            out.open(b"reg");
            shape(out, s);
            reg_variables(out, all.as_slice());
        }
        PlainItem::LocalParameter(_, s, all) => {
            out.open(b"localparam");
            shape(out, s);
            parameters(out, all.as_slice());
        }
        PlainItem::Genvar(_, all) => {
            out.open(b"genvar");
            names(out, all.as_slice());
        }
        _ => return behaviour(out, item),
    }
    out.close()
}

// `comb` and `clocked` are the two kinds of `always`, `inst` an instance item and `#` its overrides.
fn behaviour(out: &mut TreeText<'_>, item: &PlainItem) {
    match item {
        PlainItem::Assign(_, all) => {
            out.open(b"assign");
            for a in all.as_slice() {
                out.open(b"=");
                target(out, &a.target);
                expression(out, a.value.get());
                out.close();
            }
        }
        PlainItem::Combinational(_, s) => {
            out.open(b"comb");
            statement(out, s.get());
        }
        PlainItem::Clocked(_, clock, s) => {
            out.open(b"clocked");
            out.name(clock.name);
            statement(out, s.get());
        }
        PlainItem::Instances(module, overrides, all) => {
            out.open(b"inst");
            out.name(module.name);
            if let Some(overrides) = overrides {
                out.open(b"#");
                connections(out, overrides);
                out.close();
            }
            instances(out, all.as_slice());
        }
        _ => return out.word(b"?"),
    }
    out.close()
}

#[cycle(generates)]
fn generate_item(out: &mut TreeText<'_>, item: &GenerateItem) {
    match item {
        GenerateItem::Plain(item) => return plain_item(out, item),
        GenerateItem::For(_, head, label, items) => {
            out.open(b"for");
            parameter(out, &head.start);
            expression(out, head.condition.get());
            parameter(out, &head.step);
            out.name(label.name);
            generate_items(out, items.as_slice());
        }
        GenerateItem::If(branches) => {
            out.open(b"if");
            for b in branches.as_slice() {
                branch(out, b);
            }
        }
    }
    out.close()
}

#[cycle(generates)]
fn generate_items(out: &mut TreeText<'_>, all: &[GenerateItem]) {
    for item in all {
        generate_item(out, item);
    }
}

// `(on condition label ..)`, or `(on - label ..)`.
#[cycle(generates)]
fn branch(out: &mut TreeText<'_>, b: &Branch) {
    out.open(b"on");
    optional(out, &b.condition);
    out.name(b.label.name);
    generate_items(out, b.items.as_slice());
    out.close()
}

fn item(out: &mut TreeText<'_>, item: &Item) {
    match item {
        Item::Input(_, n, s, all) => {
            out.open(b"input");
            net(out, *n);
            shape(out, s);
            names(out, all.as_slice());
        }
        Item::Output(_, n, s, all) => {
            out.open(b"output");
            net(out, *n);
            shape(out, s);
            variables(out, all.as_slice());
        }
        Item::Parameter(_, s, all) => {
            out.open(b"parameter");
            shape(out, s);
            parameters(out, all.as_slice());
        }
        Item::Region(_, all) => {
            out.open(b"generate");
            generate_items(out, all.as_slice());
        }
        Item::Item(item) => return generate_item(out, item),
    }
    out.close()
}

fn header_parameter(out: &mut TreeText<'_>, p: &HeaderParameter) {
    match &p.shape {
        Some(s) => {
            out.open(b"parameter");
            shape(out, s);
            parameter(out, &p.parameter);
            out.close()
        }
        None => parameter(out, &p.parameter),
    }
}

fn header_port(out: &mut TreeText<'_>, p: &HeaderPort) {
    match p {
        HeaderPort::Input(_, n, s, x) => {
            out.open(b"input");
            net(out, *n);
            shape(out, s);
            out.name(x.name);
            out.close()
        }
        HeaderPort::Output(_, n, s, v) => {
            out.open(b"output");
            net(out, *n);
            shape(out, s);
            variable(out, v);
            out.close()
        }
        HeaderPort::Next(v) => variable(out, v),
    }
}

fn ports(out: &mut TreeText<'_>, p: &Ports) {
    match p {
        Ports::Nothing => return,
        Ports::Names(all) => {
            out.open(b"ports");
            names(out, all.as_slice());
        }
        Ports::Declarations(all) => {
            out.open(b"ports");
            for p in all.as_slice() {
                header_port(out, p);
            }
        }
    }
    out.close()
}

// `(module name (# parameters) (ports ..) items)`; no `#` where there is no parameter.
pub fn module(out: &mut TreeText<'_>, m: &ModuleBody) {
    out.open(b"module");
    out.name(m.name.name);
    if !m.parameters.is_empty() {
        out.open(b"#");
        for p in m.parameters.as_slice() {
            header_parameter(out, p);
        }
        out.close();
    }
    ports(out, &m.ports);
    for i in m.items.as_slice() {
        item(out, i);
    }
    out.close()
}
