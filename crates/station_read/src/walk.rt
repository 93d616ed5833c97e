use crate::failure::Failure;
use crate::show::TreeLine;
use sheet::sheet::Sheet;
use sheet::tree::Tree;
use token_de::cursor::TokenDe;

// Prints a line for each record, a group's line before those of its body, and answers how many there were.
// Each turn either passes a record or leaves a run; every record begins at most one run, so 2 N + 2 turns suffice.
// The turns are counted since they bound `walked` too, and nothing else does short of a proof that no two bodies overlap.
pub fn walk(rt: &HostRuntime, sheet: &Sheet) -> Result<usize, Failure> {
    let mut stack = vec![in rt.alloc(); TokenDe::new()]?;
    let mut walked = 0;
    let turns = 2 * sheet.count() + 2;
    for _turn in 0..turns {
        let Some(mut cursor) = stack.pop() else {
            break;
        };
        if let Some((record, tree)) = cursor.next(sheet) {
            let line = TreeLine {
                depth: stack.len(),
                record,
                place: sheet.place(record).unwrap_or(0),
                tree,
            };
            println!(rt; "{line}")?;
            walked += 1;
            stack.push(cursor)?;
            if let Tree::Group(_, body) = tree {
                stack.push(TokenDe::within(body))?;
            }
        }
    }
    Ok(walked)
}
