// Texts, and what the language says of them.

use prolog_lexer::{LexFault, Lexed, Lexer, Token, TokenKind};
use prolog_terms::{Bytes, Want};
use std::alloc::Global;
use std::process::Abort;

/// Rows, each closed by a pilcrow: a text, an arrow, and the text's tokens in order by kind (`n` name, `q` quoted, `v`
/// variable, `i` integer, `c` codes, `p` punctuation, `s` End), what they say, the place of their bytes and their line; then
/// `end`, or `!` with the number and line of a fault. A byte that is no visible character of ASCII stands as its number in
/// braces.
const TEXTS: &str = "\
    \x20=> end¶\
    \x20\t\n\u{b}\u{c}\r => end¶\
    a\nb => n[a]0-1/1 n[b]2-3/2 end¶\
    % c => end¶\
    %c\na => n[a]3-4/2 end¶\
    a%b => n[a]0-1/1 end¶\
    % /*\nb => n[b]5-6/2 end¶\
    /* x\n*/a => n[a]7-8/2 end¶\
    /**/a => n[a]4-5/1 end¶\
    /***/a => n[a]5-6/1 end¶\
    /*/*/a => n[a]5-6/1 end¶\
    a/**/b => n[a]0-1/1 n[b]5-6/1 end¶\
    /* ' */'x' => q[x]7-10/1 end¶\
    +/**/b => n[+/**/]0-5/1 n[b]5-6/1 end¶\
    /*/ => !4/1¶\
    \n/*/\na => !4/2¶\
    a\n/* \n => n[a]0-1/1 !4/2¶\
    aB_9z => n[aB_9z]0-5/1 end¶\
    \u{e9} => n[{195}{169}]0-2/1 end¶\
    \u{c0} => n[{195}{128}]0-2/1 end¶\
    a\u{e9}1 => n[a{195}{169}1]0-4/1 end¶\
    X _ _1 Ab => v[X]0-1/1 v[_]2-3/1 v[_1]4-6/1 v[Ab]7-9/1 end¶\
    :- => n[:-]0-2/1 end¶\
    +-*/\\^<>=~:.?@#&$ => n[+-*/\\^<>=~:.?@#&$]0-17/1 end¶\
    !; => n[!]0-1/1 n[;]1-2/1 end¶\
    a!b => n[a]0-1/1 n[!]1-2/1 n[b]2-3/1 end¶\
    / => n[/]0-1/1 end¶\
    / * => n[/]0-1/1 n[*]2-3/1 end¶\
    */ => n[*/]0-2/1 end¶\
    a. => n[a]0-1/1 s[]1-2/1 end¶\
    a.%c => n[a]0-1/1 s[]1-2/1 end¶\
    a.\nb.  => n[a]0-1/1 s[]1-2/1 n[b]3-4/2 s[]4-5/2 end¶\
    a.b => n[a]0-1/1 n[.]1-2/1 n[b]2-3/1 end¶\
    .. => n[..]0-2/1 end¶\
    ./**/ => n[./**/]0-5/1 end¶\
    +. => n[+.]0-2/1 end¶\
    .( => n[.]0-1/1 p[(]1-2/1 end¶\
    1. => i[1]0-1/1 s[]1-2/1 end¶\
    []{} => p[[]0-1/1 p[]]1-2/1 p[{]2-3/1 p[}]3-4/1 end¶\
    (,|) => p[(]0-1/1 p[,]1-2/1 p[|]2-3/1 p[)]3-4/1 end¶\
    f (X) => n[f]0-1/1 p[(]2-3/1 v[X]3-4/1 p[)]4-5/1 end¶\
    0 => i[0]0-1/1 end¶\
    007 => i[7]0-3/1 end¶\
    12ab => i[12]0-2/1 n[ab]2-4/1 end¶\
    9223372036854775808 => i[9223372036854775808]0-19/1 end¶\
    9223372036854775809 => !5/1¶\
    a\n99999999999999999999999999999999999999999 => n[a]0-1/1 !5/2¶\
    0x1fF => i[511]0-5/1 end¶\
    0xaAbB => i[43707]0-6/1 end¶\
    0o17 0b101 => i[15]0-4/1 i[5]5-10/1 end¶\
    0x8000000000000000 => i[9223372036854775808]0-18/1 end¶\
    0x8000000000000001 => !5/1¶\
    0x => i[0]0-1/1 n[x]1-2/1 end¶\
    0xg => i[0]0-1/1 n[xg]1-3/1 end¶\
    0o8 => i[0]0-1/1 n[o8]1-3/1 end¶\
    0b2 => i[0]0-1/1 n[b2]1-3/1 end¶\
    0b12 => i[1]0-3/1 i[2]3-4/1 end¶\
    00x1 => i[0]0-2/1 n[x1]2-4/1 end¶\
    0X1 => i[0]0-1/1 v[X1]1-3/1 end¶\
    0'a => i[97]0-3/1 end¶\
    0'ab => i[97]0-3/1 n[b]3-4/1 end¶\
    0'\" => i[34]0-3/1 end¶\
    0'` => i[96]0-3/1 end¶\
    0'\t => i[9]0-3/1 end¶\
    0''' => i[39]0-4/1 end¶\
    0'\\n => i[10]0-4/1 end¶\
    0'\\x41\\ => i[65]0-7/1 end¶\
    10'a' => i[10]0-2/1 q[a]2-5/1 end¶\
    0' => !3/1¶\
    0''. => !3/1¶\
    \n0'\n => !3/2¶\
    0'\\\n => !3/1¶\
    0'\\q => !3/1¶\
    'it''s' => q[it's]0-7/1 end¶\
    '' => q[]0-2/1 end¶\
    '''' => q[']0-4/1 end¶\
    'a\"b'c => q[a\"b]0-5/1 n[c]5-6/1 end¶\
    'a%b /*' => q[a%b{32}/*]0-8/1 end¶\
    '\u{0}\u{1f}\t' => q[{0}{31}{9}]0-5/1 end¶\
    '\\a\\b\\t\\n\\v\\f\\r' => q[{7}{8}{9}{10}{11}{12}{13}]0-16/1 end¶\
    '\\\\\\'\\\"\\`' => q[\\'\"`]0-10/1 end¶\
    '\\101\\b' => q[Ab]0-8/1 end¶\
    '\\x41\\' => q[A]0-7/1 end¶\
    '\\x00fF\\' => q[{255}]0-9/1 end¶\
    '\\377\\' => q[{255}]0-7/1 end¶\
    'a\\\nb'\nc => q[ab]0-6/1 n[c]7-8/3 end¶\
    \"ab\" => c[ab]0-4/1 end¶\
    \"\" => c[]0-2/1 end¶\
    \"\"\"\" => c[\"]0-4/1 end¶\
    \"it's\" => c[it's]0-6/1 end¶\
    \"a\\\n\\n\"b => c[a{10}]0-7/1 n[b]7-8/2 end¶\
    \n'ab => !2/2¶\
    'a\nb' => !2/1¶\
    'a\\\nb => !2/1¶\
    'a\\\nb\n' => !2/1¶\
    '\\n => !2/1¶\
    '\\101\\ => !2/1¶\
    'a'' => !2/1¶\
    \"a => !2/1¶\
    '\\ => !3/1¶\
    '\\12 => !3/1¶\
    '\\12\n\\' => !3/1¶\
    '\\x => !3/1¶\
    '\\x\\' => !3/1¶\
    '\\xg\\' => !3/1¶\
    '\\8' => !3/1¶\
    '\\18\\' => !3/1¶\
    '\\q' => !3/1¶\
    '\\400\\' => !3/1¶\
    '\\x100\\' => !3/1¶\
    '\\xffffffffffffffffffffffffffffffffffffffff\\' => !3/1¶\
    'a\\\n\\q' => !3/1¶\
    a\n\"\\q\" => n[a]0-1/1 !3/2¶\
    `a` => !1/1¶\
    a\n\u{7f} => n[a]0-1/1 !1/2¶\
    \u{0} => !1/1¶\
    \u{8} => !1/1¶\
    \u{e} => !1/1¶\
    a \u{1f} => n[a]0-1/1 !1/1¶\
    ";

/// Malformed texts, in the same rows: each fault by each of its causes, behind lines that end in layout, in comments, in
/// quotes and in the middle of what is refused. The faults' lines are those of the first byte of what is refused.
const MALFORMED: &str = "\
    a.\n\n` => n[a]0-1/1 s[]1-2/1 !1/3¶\
    /*\n*/ \u{1} => !1/2¶\
    /*\n\n*/a /*\n*/`b => n[a]6-7/3 !1/4¶\
    % a\n% b\n\u{7f} => !1/3¶\
    'a\\\nb' ` => q[ab]0-6/1 !1/2¶\
    \"\\\n\\\n\"` => c[]0-6/1 !1/3¶\
    a` => n[a]0-1/1 !1/1¶\
    1` => i[1]0-1/1 !1/1¶\
    \u{b}\r`\n => !1/1¶\
    0'\u{1}\u{1} => i[1]0-3/1 !1/1¶\
    ' => !2/1¶\
    \" => !2/1¶\
    '\n' => !2/1¶\
    \"\n\" => !2/1¶\
    \n\n'a => !2/3¶\
    /*\n*/'a\nb' => !2/2¶\
    'a\\\nb' 'c\nd' => q[ab]0-6/1 !2/2¶\
    \"a\\\n\\\n\" \"b => c[a]0-7/1 !2/3¶\
    '\\\n => !2/1¶\
    '\\\n\\\n\n' => !2/1¶\
    'a\\\n'' => !2/1¶\
    ''' => !2/1¶\
    '\\'\n' => !2/1¶\
    a'b => n[a]0-1/1 !2/1¶\
    '\\ a' => !3/1¶\
    '\\e' => !3/1¶\
    '\\A' => !3/1¶\
    '\\N' => !3/1¶\
    '\\9\\' => !3/1¶\
    '\\1a\\' => !3/1¶\
    '\\1' => !3/1¶\
    '\\1\n\\' => !3/1¶\
    '\\x' => !3/1¶\
    '\\x4' => !3/1¶\
    '\\x\n\\' => !3/1¶\
    '\\X41\\' => !3/1¶\
    \"\\777\\\" => !3/1¶\
    \"\\x1ff\\\" => !3/1¶\
    \"\\ => !3/1¶\
    'a\\\n\\\n\\e' => !3/1¶\
    a /*\n*/'\\\n\\e\n' => n[a]0-1/1 !3/2¶\
    'a\\\nb'\n'\\e' => q[ab]0-6/1 !3/3¶\
    '\\e\n => !3/1¶\
    % '\n0' => !3/2¶\
    0'\\ => !3/1¶\
    0'\\e => !3/1¶\
    0'\\8\\ => !3/1¶\
    0'\\12 => !3/1¶\
    0'\\x => !3/1¶\
    0'\\400\\ => !3/1¶\
    0'\\xg\\ => !3/1¶\
    /*\n*/ 0'' => !3/2¶\
    '\\\n'0'\\\n => q[]0-4/1 !3/2¶\
    a 0'\n => n[a]0-1/1 !3/1¶\
    /* => !4/1¶\
    /** => !4/1¶\
    /* * / => !4/1¶\
    a/* */ /* => n[a]0-1/1 !4/1¶\
    a /*\n\n/* => n[a]0-1/1 !4/1¶\
    % */\n/* \n\n => !4/2¶\
    '\\\n' /*\n => q[]0-4/1 !4/2¶\
    /*\n*/\n/*/\n => !4/3¶\
    9223372036854775809. => !5/1¶\
    18446744073709551616 => !5/1¶\
    00009223372036854775809 => !5/1¶\
    -9223372036854775809 => n[-]0-1/1 !5/1¶\
    \n340282366920938463463374607431768211456 => !5/2¶\
    0xFFFFFFFFFFFFFFFF => !5/1¶\
    0o1000000000000000000001 => !5/1¶\
    0b1000000000000000000000000000000000000000000000000000000000000001 => !5/1¶\
    /*\n*/ 'a\\\n' 9223372036854775809 => q[a]6-11/2 !5/3¶\
    ";

/// Texts that just miss a fault, in the same rows.
const FORMED: &str = "\
    /*\n*/a => n[a]5-6/2 end¶\
    'a\\\nb' c => q[ab]0-6/1 n[c]7-8/2 end¶\
    \"\\\n\\\n\"c => c[]0-6/1 n[c]6-7/3 end¶\
    '\\\n'.\nb => q[]0-4/1 s[]4-5/2 n[b]6-7/3 end¶\
    1.5 => i[1]0-1/1 n[.]1-2/1 i[5]2-3/1 end¶\
    X.5. => v[X]0-1/1 n[.]1-2/1 i[5]2-3/1 s[]3-4/1 end¶\
    a.\u{b}b.\u{c} => n[a]0-1/1 s[]1-2/1 n[b]3-4/1 s[]4-5/1 end¶\
    a.'b' => n[a]0-1/1 n[.]1-2/1 q[b]2-5/1 end¶\
    0o1000000000000000000000 => i[9223372036854775808]0-24/1 end¶\
    00009223372036854775808 => i[9223372036854775808]0-23/1 end¶\
    0b1000000000000000000000000000000000000000000000000000000000000000 => i[9223372036854775808]0-66/1 end¶\
    0'\\101\\0'\\x41\\ => i[65]0-7/1 i[65]7-14/1 end¶\
    0'\u{b} => i[11]0-3/1 end¶\
    0'\u{e9} => i[195]0-3/1 n[{169}]3-4/1 end¶\
    '\\0\\' => q[{0}]0-5/1 end¶\
    '\\000377\\' => q[{255}]0-10/1 end¶\
    '`'\"'\" => q[`]0-3/1 c[']3-6/1 end¶\
    ''''\"\"\"\" => q[']0-4/1 c[\"]4-8/1 end¶\
    /*%*/% /*\n => end¶\
    ";

fn push_bytes(alloc: Global, out: &mut String, bytes: &[u8]) -> Result<(), Want> {
    for b in bytes {
        if b'!' <= *b && *b <= b'~' {
            out.push(char::from(*b))?;
        } else {
            out.push_str(&format!(in alloc; "{{{b}}}")?)?;
        }
    }
    Ok(())
}

fn push_kind(alloc: Global, out: &mut String, kind: &TokenKind) -> Result<(), Want> {
    let (letter, bytes) = match kind {
        TokenKind::Name(name) => ("n", Bytes::of(alloc, name.bytes())?),
        TokenKind::Quoted(name) => ("q", Bytes::of(alloc, name.bytes())?),
        TokenKind::Variable(name) => ("v", Bytes::of(alloc, name.bytes())?),
        TokenKind::Integer(n) => ("i", Bytes::of(alloc, format!(in alloc; "{n}")?.as_bytes())?),
        TokenKind::Codes(codes) => ("c", codes.clone()?),
        TokenKind::Punct(byte) => ("p", Bytes::of(alloc, &[*byte])?),
        TokenKind::Stop => ("s", Bytes::of(alloc, &[])?),
    };
    out.push_str(letter)?;
    out.push('[')?;
    push_bytes(alloc, out, bytes.bytes())?;
    out.push(']')?;
    Ok(())
}

fn push_token(alloc: Global, out: &mut String, token: &Token) -> Result<(), Want> {
    push_kind(alloc, out, &token.kind)?;
    let Token { from, to, line, .. } = token;
    out.push_str(&format!(in alloc; "{from}-{to}/{line} ")?)?;
    Ok(())
}

fn push_fault(alloc: Global, out: &mut String, fault: &LexFault) -> Result<(), Want> {
    let LexFault { number, line } = fault;
    out.push_str(&format!(in alloc; "!{number}/{line}")?)?;
    Ok(())
}

// The tokens of the text and how they end, and how they end when asked again.
fn answers(alloc: Global, text: &[u8]) -> Result<(String, String), Want> {
    let mut lexer = Lexer::new(text);
    let mut out = String::new(alloc);
    for _ in 0..10 {
        match lexer.next(alloc)? {
            Lexed::Token(token) => push_token(alloc, &mut out, &token)?,
            Lexed::Refused(fault) => {
                push_fault(alloc, &mut out, &fault)?;
                break;
            }
            Lexed::End => {
                out.push_str("end")?;
                break;
            }
        }
    }
    let mut again = String::new(alloc);
    match lexer.next(alloc)? {
        Lexed::Token(token) => push_token(alloc, &mut again, &token)?,
        Lexed::Refused(fault) => push_fault(alloc, &mut again, &fault)?,
        Lexed::End => again.push_str("end")?,
    }
    Ok((out, again))
}

// Each row's text gives what the row says, and its end again when it is asked again.
fn check_rows(rt: &impl Abort, alloc: Global, rows: &str) {
    for row in rows.split('¶') {
        let Some((text, want)) = row.split_once(" => ") else {
            assert_eq!(rt; row, "");
            continue;
        };
        let (got, again) = answers(alloc, text.as_bytes()).expect(rt, "memory");
        assert_eq!(rt; got.as_str(), want, "at {text}");
        assert!(rt; want.ends_with(again.as_str()), "again at {text}");
    }
}

#[test]
fn gives_tokens_and_faults(rt: HostRuntime) {
    check_rows(&rt, rt.alloc(), TEXTS);
    check_rows(&rt, rt.alloc(), MALFORMED);
    check_rows(&rt, rt.alloc(), FORMED);
}
