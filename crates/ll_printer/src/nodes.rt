ghost use Rattle.std.specs.Prelude.{◌≡◌, ◌≢◌, ◌++◌, ◌∷◌, [], OnOk};
ghost use Rattle.std.specs.Fmt.{decimal};
ghost use Rattle.ll_printed.specs.ModulePhrases.{braced, node_line, node_ref_phrase, part_phrase, version_line};
ghost use Rattle.ll_phrases.specs.Phrases.{each_phrase, list_phrase, written};
ghost use Rattle.ll_phrases.specs.Texts.{quoted};

use ll_op_printer::{push_bytes, push_number, push_quoted, push_separator, push_typed};
use ll_tree::{NameText, Node, NodePart, NodeRef};
use ports::OutOfMemory;

/// Writes the line of each node (LLVM 14, Metadata Nodes and Metadata Strings).
pub fn push_nodes(text: &mut Vec<u8>, names: &[NameText], nodes: &[Node]) -> Result<(), OutOfMemory>
    ensures { OnOk result (text.new.items ≡ text.old.items ++ written (each_phrase (node_line names.now) nodes.now)) }
{
    for i in 0..nodes.len() {
        push_node(text, names, &nodes[i])?;
    }
    Ok(())
}

fn push_node(text: &mut Vec<u8>, names: &[NameText], node: &Node) -> Result<(), OutOfMemory>
    ensures { OnOk result (text.new.items ≡ text.old.items ++ written (node_line names.now node.now)) }
{
    push_node_number(text, node.number)?;
    push_bytes(text, b" = ")?;
    push_braced_parts(text, names, node.parts.as_slice())?;
    push_bytes(text, b"\n")
}

fn push_braced_parts(
    text: &mut Vec<u8>,
    names: &[NameText],
    parts: &[NodePart],
) -> Result<(), OutOfMemory>
    ensures { OnOk result (text.new.items ≡ text.old.items ++ written (braced (list_phrase (part_phrase names.now) parts.now))) }
{
    push_bytes(text, b"!{")?;
    push_parts(text, names, parts)?;
    push_bytes(text, b"}")
}

fn push_parts(text: &mut Vec<u8>, names: &[NameText], parts: &[NodePart]) -> Result<(), OutOfMemory>
    ensures { OnOk result (text.new.items ≡ text.old.items ++ written (list_phrase (part_phrase names.now) parts.now)) }
{
    for i in 0..parts.len() {
        push_separator(text, i)?;
        push_part(text, names, &parts[i])?;
    }
    Ok(())
}

fn push_part(text: &mut Vec<u8>, names: &[NameText], part: &NodePart) -> Result<(), OutOfMemory>
    ensures { OnOk result (text.new.items ≡ text.old.items ++ written (part_phrase names.now part.now)) }
{
    match part {
        NodePart::Node(node) => push_node_ref(text, *node),
        NodePart::Text(bytes) => push_metadata_string(text, bytes.as_slice()),
        NodePart::Null => push_bytes(text, b"null"),
        NodePart::Value(value) => push_typed(text, names, value),
    }
}

fn push_metadata_string(text: &mut Vec<u8>, bytes: &[u8]) -> Result<(), OutOfMemory>
    ensures { OnOk result (text.new.items ≡ text.old.items ++ 33 ∷ quoted bytes.now) }
{
    push_bytes(text, b"!")?;
    push_quoted(text, bytes)
}

/// Writes a node by its number.
pub fn push_node_ref(text: &mut Vec<u8>, node: NodeRef) -> Result<(), OutOfMemory>
    ensures { OnOk result (text.new.items ≡ text.old.items ++ written (node_ref_phrase node)) }
{
    push_node_number(text, node.number)
}

fn push_node_number(text: &mut Vec<u8>, number: u32) -> Result<(), OutOfMemory>
    ensures { OnOk result (text.new.items ≡ text.old.items ++ 33 ∷ decimal number) }
{
    push_bytes(text, b"!")?;
    push_number(text, u64::from(number))
}

/// Writes the line that names the nodes of `opencl.ocl.version`, where there are any (LLVM 14, Named Metadata).
pub fn push_version(text: &mut Vec<u8>, nodes: &[NodeRef]) -> Result<(), OutOfMemory>
    ensures { OnOk result (text.new.items ≡ text.old.items ++ written (version_line nodes.now)) }
{
    if nodes.is_empty() {
        Ok(())
    } else {
        push_version_line(text, nodes)
    }
}

fn push_version_line(text: &mut Vec<u8>, nodes: &[NodeRef]) -> Result<(), OutOfMemory>
    requires { nodes.now ≢ [] }
    ensures { OnOk result (text.new.items ≡ text.old.items ++ written (version_line nodes.now)) }
{
    push_bytes(text, b"!opencl.ocl.version = !{")?;
    push_node_refs(text, nodes)?;
    push_bytes(text, b"}\n")
}

fn push_node_refs(text: &mut Vec<u8>, nodes: &[NodeRef]) -> Result<(), OutOfMemory>
    ensures { OnOk result (text.new.items ≡ text.old.items ++ written (list_phrase node_ref_phrase nodes.now)) }
{
    for i in 0..nodes.len() {
        push_separator(text, i)?;
        push_node_ref(text, nodes[i])?;
    }
    Ok(())
}
