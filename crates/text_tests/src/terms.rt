// What no clause says: that each call answers with ample memory.

use prolog_terms::{
    Bytes, Clause, End, Entries, Entry, Indicator, Infix, Kind, Name, Names, Node, Ops, Prefix,
    Shown, ShownVariables, Term, Want, What, copy_clause, copy_entry,
};
use std::alloc::Global;

fn indicator(alloc: Global) -> Result<Indicator, Want> {
    Ok(Indicator {
        name: Name::of(alloc, b"foo")?,
        arity: 1,
    })
}

fn atom(alloc: Global) -> Result<Option<Term>, Want> {
    let mut nodes = Vec::new(alloc);
    nodes.push(Node::Atom(Name::of(alloc, b"foo")?))?;
    Ok(Term::of_nodes(nodes).ok())
}

fn pair(alloc: Global, arity: u32) -> Result<bool, Want> {
    let mut nodes = Vec::new(alloc);
    nodes.push(Node::Functor(Name::of(alloc, b"f")?, arity))?;
    nodes.push(Node::Var(0))?;
    nodes.push(Node::Int(1))?;
    Ok(Term::of_nodes(nodes).is_ok())
}

#[test]
fn nodes_are_a_term_or_come_back(rt: HostRuntime) {
    for arity in [0, 1, 2, 3, 256] {
        assert!(rt;
            pair(rt.alloc(), arity) == Ok(arity == 2),
            "an arity of {arity}"
        );
    }
}

#[test]
fn texts_get_numbers(rt: HostRuntime) -> Result<(), Want> {
    let mut names = Names::new(rt.alloc());
    assert_eq!(rt; names.intern(b"a")?, 0);
    assert_eq!(rt; names.intern(b"b")?, 1);
    assert_eq!(rt; names.intern(b"a")?, 0);
    assert_eq!(rt; names.count(), 2);
    Ok(())
}

#[test]
fn bytes_are_kept(rt: HostRuntime) -> Result<(), Want> {
    let bytes = Bytes::of(rt.alloc(), b"a b")?;
    assert!(rt; bytes.bytes() == b"a b".as_slice());
    assert!(rt; bytes == bytes.clone()?);
    Ok(())
}

fn fact(alloc: Global) -> Result<Option<Entry>, Want> {
    if let (Some(head), Some(body)) = (atom(alloc)?, atom(alloc)?) {
        let clause = Clause {
            head,
            body,
            vars: 0,
        };
        let what = What::Add(End::Back, 0, copy_clause(&clause)?);
        return Ok(Some(Entry { by: 0, what }));
    }
    Ok(None)
}

#[test]
fn entries_are_copied(rt: HostRuntime) -> Result<(), Want> {
    let mut entries = Entries::new(rt.alloc());
    if let Some(entry) = fact(rt.alloc())? {
        entries.push(copy_entry(&entry)?)?;
    }
    let what = What::Declare(indicator(rt.alloc())?, Kind::Static);
    entries.push(Entry { by: 0, what })?;
    assert_eq!(rt; entries.items().len(), 2);
    Ok(())
}

#[test]
fn shown_variables_are_kept(rt: HostRuntime) -> Result<(), Want> {
    let alloc = rt.alloc();
    let mut items = ShownVariables::new(alloc).into_vec();
    let name = Name::of(alloc, b"X")?;
    items.push(Shown { name, var: 3 })?;
    let shown = ShownVariables::from_vec(items);
    assert!(rt; shown == shown.clone()?);
    assert!(rt; shown.items().first().is_some_and(|x| x.var == 3));
    Ok(())
}

/// Prefix operators of the first table: names, their priority, and the greatest that their operands may have.
const PREFIXES: [(&str, u16, u16); 4] = [
    (":- ?-", 1200, 1199),
    ("dynamic discontiguous multifile initialization", 1150, 1149),
    ("\\+", 900, 900),
    ("- \\", 200, 200),
];

/// Infix ones: names, the greatest that their left operands may have, their priority, and the greatest of their right ones.
const INFIXES: [(&str, u16, u16, u16); 9] = [
    (":- -->", 1199, 1200, 1199),
    (";", 1099, 1100, 1100),
    ("->", 1049, 1050, 1050),
    (",", 999, 1000, 1000),
    (
        "= \\= == \\== @< @=< @> @>= =.. is =:= =\\= < =< > >=",
        699,
        700,
        699,
    ),
    ("+ - /\\ \\/", 500, 500, 499),
    ("* / // rem mod << >>", 400, 400, 399),
    ("**", 199, 200, 199),
    ("^", 199, 200, 200),
];

#[test]
fn the_first_table_has_these(rt: HostRuntime) {
    let ops = Ops::initial(rt.alloc()).expect(&rt, "memory");
    for (names, priority, operand) in PREFIXES {
        for name in names.split(' ') {
            let found = ops.definitions(name.as_bytes()).as_prefix;
            assert!(rt; found == Some(Prefix { priority, operand }), "{name}");
        }
    }
    for (names, left, priority, right) in INFIXES {
        for name in names.split(' ') {
            let found = ops.definitions(name.as_bytes()).as_infix;
            assert!(rt;
                found
                    == Some(Infix {
                        left,
                        priority,
                        right
                    }),
                "{name}"
            );
        }
    }
}

/// Names that are operators of one class alone, or of none.
#[test]
fn the_first_table_has_no_others(rt: HostRuntime) {
    let ops = Ops::initial(rt.alloc()).expect(&rt, "memory");
    for name in "--> ; -> , = < =< > >= is + * / ** ^ /\\ << : | @ ! [] {} a".split(' ') {
        let found = ops.definitions(name.as_bytes());
        assert!(rt; found.as_prefix.is_none(), "{name}");
        assert!(rt; found.as_postfix.is_none(), "{name}");
    }
    for name in "?- \\+ \\ dynamic initialization : | @ ! [] {} a".split(' ') {
        let found = ops.definitions(name.as_bytes());
        assert!(rt; found.as_infix.is_none(), "{name}");
        assert!(rt; found.as_postfix.is_none(), "{name}");
    }
}
