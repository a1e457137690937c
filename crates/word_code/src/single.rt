// The only phase of the only processor. Here all is known that comes after a statement: where from then on the words of A are only
// multiplied, they are stored without a reduction and may be as great as those of registers. So may those of B.

ghost use Rattle.std.specs.Prelude.{◌≡◌, ◌^◌, ◌<◌, ◌≤◌, length, IfOk, OnOk, IsTrue};
ghost use Rattle.icode.specs.Limits.{is_stmt_within, is_body_within};
ghost use Rattle.icode.specs.Plain.{plain_stmt, plain_body};
ghost use Rattle.word_code.specs.Quicken.{loosened};
ghost use Rattle.word_code.specs.Setting.{IsSettingWithin, AreBoundsWithin};
ghost use Rattle.word_code.specs.Setting.{quick_needed_in, quick_alone_in};
ghost use Rattle.word_code.specs.Views.{lazy_of, plain_word_stmt, plain_word_body};

use crate::needs::{Needs, needs_of_each};
use crate::program::{Laziness, Setting, WordStmt};
use crate::quicken::quicken_stmt;
use icode::program::Stmt;
use memory::NoMemory;
use std::alloc::Global;

fn loosened(laziness: Laziness, needs: Needs) -> Laziness
    ensures { lazy_of result ≡ loosened (lazy_of laziness) needs }
{
    Laziness {
        half: laziness.half,
        rough: laziness.rough,
        keep_a: if needs.of_a {
            laziness.keep_a
        } else {
            laziness.limit
        },
        keep_b: if needs.of_b {
            laziness.keep_b
        } else {
            laziness.limit
        },
        limit: laziness.limit,
    }
}

/// The statement on words, where this is needed from it on.
fn quicken_needed(
    alloc: Global,
    setting: Setting,
    needs: Needs,
    stmt: &Stmt,
    bounds: &mut [u64],
) -> Result<WordStmt, NoMemory>
    requires within { IsTrue (is_stmt_within setting.modulus (plain_stmt stmt.now) 0) }
    requires setting { IsSettingWithin setting }
    requires regs { length bounds.old ≡ setting.regs }
    requires sane { AreBoundsWithin setting bounds.old }
    ensures stmt { IfOk result
        (λ s. plain_word_stmt s ≡ (quick_needed_in setting needs stmt.now bounds.old).stmt) }
    ensures after { OnOk result
        (bounds.new ≡ (quick_needed_in setting needs stmt.now bounds.old).bounds) }
{
    let here = Setting {
        laziness: loosened(setting.laziness, needs),
        modulus: setting.modulus,
        lanes: setting.lanes,
        regs: setting.regs,
    };
    let made = quicken_stmt(alloc, here, stmt, 0, bounds)?;
    Ok(made)
}

/// The statements of the phase on words.
pub(crate) fn quicken_alone(
    alloc: Global,
    setting: Setting,
    body: &[Stmt],
) -> Result<Vec<WordStmt>, NoMemory>
    requires within { IsTrue (is_body_within setting.modulus (plain_body body.now) 0) }
    requires setting { IsSettingWithin setting }
    ensures { IfOk result
        (λ made. plain_word_body made.items ≡ quick_alone_in setting (plain_body body.now)) }
{
    let each = needs_of_each(alloc, body)?;
    let mut bounds = vec![in alloc; setting.laziness.limit; setting.regs as usize]?;
    let bounds = bounds.as_mut_slice();
    let mut made = Vec::new(alloc);
    for index in 0..body.len() {
        let stmt = quicken_needed(alloc, setting, each[index], &body[index], bounds)?;
        made.push(stmt)?;
    }
    Ok(made)
}
