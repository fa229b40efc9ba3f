//! What several topics print.

use case_text::Page;

/// The node, behind a blank.
pub fn put_node(page: &mut Page, node: u32) {
    page.put(" ");
    page.number(u64::from(node));
}

/// The nodes, each behind a blank.
pub fn put_nodes(page: &mut Page, nodes: &[u32]) {
    for node in nodes {
        put_node(page, *node);
    }
}

/// The number of a cause, and the line.
pub fn put_cause(page: &mut Page, number: u8, line: u32) {
    page.number(u64::from(number));
    page.put(" at line ");
    page.number(u64::from(line));
    page.put("\n");
}
