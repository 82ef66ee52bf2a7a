//! Typed trees: names that have become numbers.
use anyhow::{Result, bail};
use ms_edge::Refusal;
use ms_include::load_bytes;
use ms_list::{Bytes, List, Name, let_go};
use ms_logic::{
    Checked, ExportUse, Formula, Global, ImportUse, Loaded, Mode, Order, Param, Placed, Predicate,
    Term1,
};
use ms_names::check;
use std::io;

const SOURCE: &str =
    "m2l-str; var1 x; var2 P; pred p(var1 y, var2 Q) = y in Q; ex1 z: p(z, P) & x < z; import(\"a\", u -> x); export(\"b\", x in P);";

pub fn tell(rt: &HostRuntime) -> Result<()> {
    println!(rt; "Typed trees")?;
    check_text(rt, SOURCE)?;
    check_text(rt, "var1 x; ex1 y: x < y;")?;
    check_text(rt, "var1 x; ex1 y: z < y;")?;
    check_text(rt, "true; goal \"some\" ex1 x: x < 1; goal \"\" true;")
}

fn check_text(rt: &HostRuntime, text: &str) -> Result<()> {
    let bytes = Bytes::from(Vec::from_slice(rt.alloc(), text.as_bytes())?);
    if bytes.len() > 1_048_576 {
        bail!("the text is too long");
    }
    let loaded = load_bytes(rt.alloc(), "generated", bytes);
    let told = check_loaded(rt, &loaded);
    let_go(loaded);
    told
}

fn check_loaded(rt: &HostRuntime, loaded: &Result<Loaded, Refusal>) -> Result<()> {
    match loaded {
        Ok(loaded) => check_source(rt, loaded),
        Err(_) => bail!("the text is refused"),
    }
}

fn check_source(rt: &HostRuntime, loaded: &Loaded) -> Result<()> {
    let answer = check(rt.alloc(), loaded);
    let told = tell_answer(rt, &answer);
    let_go(answer);
    told
}

fn tell_answer(rt: &HostRuntime, answer: &Result<Checked, Refusal>) -> Result<()> {
    print_answer(rt, answer)?;
    Ok(())
}

fn print_answer(rt: &HostRuntime, answer: &Result<Checked, Refusal>) -> io::Result<()> {
    match answer {
        Ok(checked) => print_checked(rt, checked),
        Err(refusal) => print_refusal(rt, refusal),
    }
}

fn print_refusal(rt: &HostRuntime, refusal: &Refusal) -> io::Result<()> {
    match refusal {
        Refusal::UnknownName { at, name } => {
            println!(rt; "an unknown name, {} at {}", name.text(), at.place)
        }
        _ => println!(rt; "another refusal"),
    }
}

fn print_checked(rt: &HostRuntime, checked: &Checked) -> io::Result<()> {
    let mode = mode_word(checked.mode);
    println!(rt; "{mode}, {} files", checked.files.len())?;
    print_globals(rt, checked.globals.slice())?;
    print_predicates(rt, checked.predicates.slice())?;
    print_formulas(rt, checked.formulas.slice())?;
    print_imports(rt, checked.imports.slice())?;
    print_exports(rt, checked.exports.slice())
}

fn print_globals(rt: &HostRuntime, globals: &[Global]) -> io::Result<()> {
    for global in globals {
        let order = order_word(global.order);
        println!(rt;
            "global {}, {order}, at {}, declaration {}",
            global.name.text(),
            global.at.place,
            global.item
        )?;
    }
    Ok(())
}

fn print_predicates(rt: &HostRuntime, predicates: &[Predicate]) -> io::Result<()> {
    for predicate in predicates {
        println!(rt; "a predicate")?;
        print_parameters(rt, predicate.params.slice())?;
    }
    Ok(())
}

fn print_parameters(rt: &HostRuntime, params: &[Param]) -> io::Result<()> {
    for param in params {
        let order = order_word(param.order);
        println!(rt; "parameter {}, {order}", param.variable)?;
    }
    Ok(())
}

fn print_formulas(rt: &HostRuntime, formulas: &[Placed]) -> io::Result<()> {
    for placed in formulas {
        if let Some(title) = &placed.title {
            println!(rt; "goal {}:", title.text())?;
        }
        println!(rt;
            "a formula at {}, declaration {}",
            placed.at.place, placed.item
        )?;
        print_bound(rt, &placed.formula)?;
    }
    Ok(())
}

/// The number of a bound variable, and of the variable on the left of its body where that is a comparison.
fn print_bound(rt: &HostRuntime, formula: &Formula) -> io::Result<()> {
    let Formula::Bind(_, _, bound, _, body) = formula else {
        return Ok(());
    };
    println!(rt; "it binds {bound}")?;
    if let Formula::Compare(_, Term1::Var(left), _) = body.get() {
        println!(rt; "and compares {left}")?;
    }
    Ok(())
}

fn print_imports(rt: &HostRuntime, imports: &[ImportUse]) -> io::Result<()> {
    for import in imports {
        println!(rt; "import {} at {}", import.name.text(), import.at.place)?;
        for pair in import.pairs.slice() {
            let order = order_word(pair.order);
            println!(rt; "{} is {}, {order}", pair.name.text(), pair.variable)?;
        }
    }
    Ok(())
}

fn print_exports(rt: &HostRuntime, exports: &[ExportUse]) -> io::Result<()> {
    for export in exports {
        println!(rt; "export {} at {}", export.name.text(), export.at.place)?;
        println!(rt; "over {:?}", export.variables.slice())?;
        print_names(rt, &export.names)?;
    }
    Ok(())
}

fn print_names(rt: &HostRuntime, names: &List<Name>) -> io::Result<()> {
    for name in names.slice() {
        println!(rt; "named {}", name.text())?;
    }
    Ok(())
}

fn mode_word(mode: Mode) -> &'static str {
    match mode {
        Mode::Ws1s => "WS1S",
        Mode::M2lStr => "M2L-Str",
    }
}

fn order_word(order: Order) -> &'static str {
    match order {
        Order::Zero => "a truth value",
        Order::One => "a number",
        Order::Two => "a set",
    }
}
