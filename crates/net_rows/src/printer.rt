//! A plain printer of programs, with brackets wherever a group is in a group.

use case_text::Page;
use chp_syntax::{Decl, DeclKind, Expr, Ident, Op, Program, Stmt};

fn sign(op: Op) -> &'static str {
    match op {
        Op::And => " & ",
        Op::Or => " | ",
        Op::Xor => " ^ ",
        Op::Add => " + ",
        Op::Sub => " - ",
        Op::Eq => " = ",
        Op::Ne => " != ",
        Op::Lt => " < ",
        Op::Le => " <= ",
        Op::Gt => " > ",
        Op::Ge => " >= ",
    }
}

/// A name, and what comes after it.
fn put_name(out: &mut Page, name: &Ident, end: &str) {
    out.bytes(name.name.bytes());
    out.put(end);
}

/// Places of a name, in brackets: one, or from the first one down to the last one.
fn put_places(out: &mut Page, name: &Ident, first: u64, last: Option<u64>) {
    put_name(out, name, "[");
    out.number(first);
    if let Some(last) = last {
        out.put(":");
        out.number(last);
    }
    out.put("]");
}

/// A number, or a variable or places of one.
fn put_operand(out: &mut Page, e: &Expr) {
    match e {
        Expr::Number { value, .. } => out.number(*value),
        Expr::Whole { of } => put_name(out, of, ""),
        Expr::Slice { of, high, low, .. } => put_places(out, of, *high, Some(*low)),
        Expr::Bit { of, place, .. } => put_places(out, of, *place, None),
        _ => {}
    }
}

fn put_expr(out: &mut Page, e: &Expr, nested: bool) {
    match e {
        Expr::Join { parts, .. } => {
            let mut before = "{";
            for part in parts {
                out.put(before);
                put_expr(out, part, false);
                before = ", ";
            }
            out.put("}");
        }
        Expr::Not { inner, .. } => {
            out.put("~");
            put_expr(out, inner, true);
        }
        Expr::Chain { first, rest, .. } => {
            out.put(if nested { "(" } else { "" });
            put_expr(out, first, true);
            for link in rest {
                out.put(sign(link.op));
                put_expr(out, &link.right, true);
            }
            out.put(if nested { ")" } else { "" });
        }
        _ => put_operand(out, e),
    }
}

/// A statement without statements in it.
fn put_step(out: &mut Page, s: &Stmt) {
    match s {
        Stmt::Assign { target, value } => {
            put_name(out, target, " := ");
            put_expr(out, value, false);
        }
        Stmt::Send { chan, value } => {
            put_name(out, chan, "!");
            put_expr(out, value, false);
        }
        Stmt::Receive { chan, target } => {
            put_name(out, chan, "?");
            put_name(out, target, "");
        }
        Stmt::Call { of } => {
            out.put("call ");
            put_name(out, of, "");
        }
        _ => out.put("skip"),
    }
}

fn put_stmt(out: &mut Page, s: &Stmt, nested: bool) {
    match s {
        Stmt::Then { parts } | Stmt::Beside { parts } => {
            let is_sequence = matches!(s, Stmt::Then { .. });
            let between = if is_sequence { "; " } else { " || " };
            let mut before = if nested { "(" } else { "" };
            for part in parts {
                out.put(before);
                put_stmt(out, part, true);
                before = between;
            }
            out.put(if nested { ")" } else { "" });
        }
        Stmt::Select { again, arms } => {
            let mut before = if *again { "*[" } else { "[" };
            for arm in arms {
                out.put(before);
                put_expr(out, &arm.guard, false);
                out.put(" -> ");
                put_stmt(out, &arm.body, false);
                before = " [] ";
            }
            out.put("]");
        }
        Stmt::Repeat { body } => {
            out.put("*[");
            put_stmt(out, body, false);
            out.put("]");
        }
        _ => put_step(out, s),
    }
}

fn put_declaration(out: &mut Page, decl: &Decl) {
    out.put(match decl.kind {
        DeclKind::In => "in ",
        DeclKind::Out => "out ",
        DeclKind::Chan => "chan ",
        DeclKind::Var => "var ",
    });
    put_name(out, &decl.name, " : ");
    out.number(decl.width);
    if decl.first_at != decl.width_at {
        out.put(" = ");
        out.number(decl.first);
    }
    out.put("; ");
}

/// Prints the program, with its procedures after its other declarations.
pub fn put_program(out: &mut Page, program: &Program) {
    for decl in &program.decls {
        put_declaration(out, decl);
    }
    for procedure in &program.procs {
        out.put("proc ");
        put_name(out, &procedure.name, " = ");
        put_stmt(out, &procedure.body, true);
        out.put("; ");
    }
    out.put("begin ");
    put_stmt(out, &program.body, false);
    out.put(" end");
}
