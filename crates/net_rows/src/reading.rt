//! What a text is read as.

ghost use Rattle.std.specs.Prelude.{◌≡◌, ◌≤◌, length, IfOk, IfSome};
ghost use Rattle.std.specs.Result.{result_ok};
ghost use Rattle.chp_syntax.specs.Shape.{IsShaped};
ghost use Rattle.chp_syntax.specs.View.{program_tree};
ghost use Rattle.width_check.specs.Accepted.{IsAccepted};
ghost use Rattle.width_check.specs.Form.{typed_form};
ghost use Rattle.width_check.specs.Typed.{program_of};
ghost use Rattle.call_merge.specs.CallFaults.{MeetsCalling};
ghost use Rattle.call_merge.specs.Inlining.{IsInlined};
ghost use Rattle.call_compose.specs.Inlined.{AreInlined};

use crate::printer::put_program;
use call_merge::{CallError, inline};
use case_text::Page;
use chp_base::TextError;
use chp_syntax::{Program, Token, TokenKind, parse, tokens};
use sharing_check::{Disjoint, share};
use std::alloc::Global;
use width_check::{is_call_free, resolve};

/// The most bytes of a program text.
const MOST: usize = 262_144;

/// What was made of a text, or None where that is refused.
fn made<T>(made: Result<T, TextError>, page: &mut Page) -> Option<T>
    ensures { result ≡ result_ok made }
{
    match made {
        Ok(made) => Some(made),
        Err(TextError::Refused(_)) => None,
        Err(TextError::NoMemory(_)) => {
            page.give_up();
            None
        }
    }
}

/// The program that the text is. Functions that own one drop it by one call, since it is in a box.
fn parsed(alloc: Global, text: &[u8]) -> Result<Box<Program>, TextError>
    requires { length text.now ≤ 262144 }
    ensures { IfOk result (λ program. IsShaped (program_tree program.value)) }
{
    Ok(Box::new(alloc, parse(alloc, text)?)?)
}

/// The program that the text is. `None` where the text is too long or refused, or memory runs out.
pub fn program_of_text(alloc: Global, text: &[u8], page: &mut Page) -> Option<Box<Program>>
    ensures { IfSome result (λ program. IsShaped (program_tree program.value)) }
{
    if text.len() > MOST {
        return None;
    }
    made(parsed(alloc, text), page)
}

/// The program with its names resolved, where it is accepted and has neither procedures nor calls. Functions that own
/// one drop it by one call, since it is in a box.
pub fn checked(alloc: Global, program: &Program, page: &mut Page) -> Option<Box<Disjoint>>
    requires { IsShaped (program_tree program.now) }
    ensures accepted { IfSome result (λ _. IsAccepted (program_tree program.now)) }
    ensures form { IfSome result (λ disjoint. program_of disjoint.value ≡ typed_form (program_tree program.now)) }
{
    if program.decls.len() > MOST || !is_call_free(program) {
        return None;
    }
    let typed = made(resolve(alloc, program), page)?;
    let disjoint = made(share(alloc, typed), page)?;
    page.taken(Box::new(alloc, disjoint))
}

/// The accepted program that the text is. `None` where the text is too long or refused, has procedures or calls, or
/// memory runs out.
pub fn accepted(alloc: Global, text: &[u8], page: &mut Page) -> Option<Box<Disjoint>> {
    let program = program_of_text(alloc, text, page)?;
    checked(alloc, &program, page)
}

/// The program in which each call is its procedure's body.
fn merged(alloc: Global, program: &Program, page: &mut Page) -> Option<Box<Program>>
    requires few { length program.now.procs.items ≤ 300000 }
    requires shaped { IsShaped (program_tree program.now) }
    ensures inlined { IfSome result (λ plain. IsInlined (program_tree program.now) (program_tree plain.value)) }
    ensures meets { IfSome result (λ _. MeetsCalling (program_tree program.now)) }
    ensures shaped { IfSome result (λ plain. IsShaped (program_tree plain.value)) }
{
    match inline(alloc, program) {
        Ok(plain) => page.taken(Box::new(alloc, plain)),
        Err(error) => {
            if matches!(error, CallError::NoMemory(_)) {
                page.give_up();
            }
            None
        }
    }
}

/// The same with its names resolved, where it is accepted. `None` where something is refused, or memory runs out.
pub fn inlined(alloc: Global, program: &Program, page: &mut Page) -> Option<Box<Disjoint>>
    requires few { length program.now.procs.items ≤ 300000 }
    requires shaped { IsShaped (program_tree program.now) }
    ensures { IfSome result (λ disjoint. AreInlined (program_tree program.now) (program_of disjoint.value)) }
{
    let plain = merged(alloc, program, page)?;
    checked(alloc, &plain, page)
}

fn put_refusal(page: &mut Page, error: &TextError) {
    match error {
        TextError::Refused(fault) => {
            page.number(u64::from(fault.code.number()));
            page.put(" at ");
            page.number(u64::from(fault.at.from));
            page.put("..");
            page.number(u64::from(fault.at.to));
            page.put("\n");
        }
        TextError::NoMemory(_) => page.give_up(),
    }
}

/// Puts the program that the text is, printed with brackets round each group in a group, and gives what was printed.
/// Where it is refused, the number of the cause and the place are put.
fn put_text(alloc: Global, text: &[u8], page: &mut Page) -> Option<String> {
    if text.len() > MOST {
        page.put("too long\n");
        return None;
    }
    let mut own = Page::new(alloc);
    match parsed(alloc, text) {
        Ok(program) => put_program(&mut own, &program),
        Err(error) => {
            put_refusal(page, &error);
            return None;
        }
    }
    let printed = page.taken(own.whole())?;
    page.put("= ");
    page.bytes(printed.as_bytes());
    page.put("\n");
    Some(printed)
}

/// What the text is read as, and the same of what was printed.
pub fn show(alloc: Global, text: &[u8], page: &mut Page) {
    if let Some(printed) = put_text(alloc, text, page) {
        let _again = put_text(alloc, printed.as_bytes(), page);
    }
}

fn put_token(page: &mut Page, token: &Token) {
    page.number(u64::from(token.at.from));
    page.put("..");
    page.number(u64::from(token.at.to));
    page.put(" ");
    match &token.kind {
        TokenKind::Word(key) => page.debug(key),
        TokenKind::Number(value) => page.number(*value),
        TokenKind::Sign(mark) => page.debug(mark),
        TokenKind::Ident(name) => page.bytes(name.bytes()),
    }
    page.put("\n");
}

/// The tokens of the text with their places, or the place of the first bytes that are none.
pub fn show_tokens(alloc: Global, text: &[u8], page: &mut Page) {
    if text.len() > MOST {
        return page.put("too long\n");
    }
    match tokens(alloc, text) {
        Ok(tokens) => {
            for token in &tokens {
                put_token(page, token);
            }
        }
        Err(error) => put_refusal(page, &error),
    }
}
