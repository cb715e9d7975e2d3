// Terms that loading refuses.
use crate::world::gives;
use std::test::Fail;

#[test]
fn refused_terms(rt: HostRuntime) -> Result<(), Fail> {
    let alloc = rt.alloc();
    let one: [(&[u8], &[u8]); 18] = [
        (
            b":- module(m, []).\np(L) :- findall(X, q(X), L).",
            b"refused 'a.pl' 2 unsupported findall/3\n",
        ),
        (
            b":- module(m, []).\np(X) :- q(X)",
            b"refused 'a.pl' 2 syntax\n",
        ),
        (b"p(a).", b"refused 'a.pl' 1 no_module\n"),
        (b"", b"refused 'a.pl' 1 no_module\n"),
        (
            b":- module(m, []).\np('x\ny').",
            b"refused 'a.pl' 2 open_quote 20\n",
        ),
        (
            b":- module(m, []).\np. /* q",
            b"refused 'a.pl' 3 open_comment 21\n",
        ),
        (
            b":- module(m, []).\np('\\q').",
            b"refused 'a.pl' 2 bad_escape 21\n",
        ),
        (
            b":- module(m, []).\np({).",
            b"refused 'a.pl' 2 bad_character 20\n",
        ),
        (
            b":- module(m, []).\np(170141183460469231731687303715884105728).",
            b"refused 'a.pl' 2 number_too_large 20\n",
        ),
        (
            b":- module(m, []).\n3 :- p.",
            b"refused 'a.pl' 2 not_a_clause\n",
        ),
        (
            b":- module(m, []).\np(a,b,c,d,e,f,g,h,i,j,k,l,m,n,o,p,q).",
            b"refused 'a.pl' 2 pred_arity 17\n",
        ),
        (
            b":- module(m, []).\np(f(V0,V1,V2,V3),f(V4,V5,V6,V7),f(V8,V9,V10,V11),f(V12,V13,V14,V15),f(V16,V17,V18,V19),f(V20,V21,V22,V23),f(V24,V25,V26,V27),f(V28,V29,V30,V31),f(V32,V33,V34,V35),f(V36,V37,V38,V39),f(V40,V41,V42,V43),f(V44,V45,V46,V47),f(V48,V49,V50,V51),f(V52,V53,V54,V55),f(V56,V57,V58,V59),f(V60,V61,V62,V63)).",
            b"refused 'a.pl' 2 too_many_slots 80\n",
        ),
        (
            b":- module(m, []).\np. :- dynamic(p).",
            b"refused 'a.pl' 3 bad_directive\n",
        ),
        (
            b":- module(m, []).\n:- op(1201, xfx, q).",
            b"refused 'a.pl' 2 bad_operator\n",
        ),
        (
            b":- module(m, []).\n:- entry p(a).",
            b"refused 'a.pl' 2 bad_property\n",
        ),
        (
            b":- module(m, []).\np :- (q ; r).",
            b"refused 'a.pl' 2 unsupported ;/2\n",
        ),
        (
            b":- module(m, []).\np :- (q --> r), '\\\\+'(s).",
            b"refused 'a.pl' 2 unsupported \\+/1\n",
        ),
        (
            b":- module(m, []).\np(a,a,a,a,a,a,a,a,a,a,a,a,a,a,a,a,a,a,a,a,a,a,a,a,a,a,a,a,a,a,a,a,a,a,a,a,a,a,a,a,a,a,a,a,a,a,a,a,a,a,a,a,a,a,a,a,a,a,a,a,a,a,a,a,a,a,a,a,a,a,a,a,a,a,a,a,a,a,a,a,a,a,a,a,a,a,a,a,a,a,a,a,a,a,a,a,a,a,a,a,a,a,a,a,a,a,a,a,a,a,a,a,a,a,a,a,a,a,a,a,a,a,a,a,a,a,a,a,a,a,a,a,a,a,a,a,a,a,a,a,a,a,a,a,a,a,a,a,a,a,a,a,a,a,a,a,a,a,a,a,a,a,a,a,a,a,a,a,a,a,a,a,a,a,a,a,a,a,a,a,a,a,a,a,a,a,a,a,a,a,a,a,a,a,a,a,a,a,a,a,a,a,a,a,a,a,a,a,a,a,a,a,a,a,a,a,a,a,a,a,a,a,a,a,a,a,a,a,a,a,a,a,a,a,a,a,a,a,a,a,a,a,a,a,a,a,a,a,a,a,a,a,a,a,a,a).",
            b"refused 'a.pl' 2 term_arity\n",
        ),
    ];
    for (text, line) in one {
        assert!(rt; gives(alloc, &["a.pl"], &[("a.pl", text)], 3, line)?);
    }
    let two: [(&str, &[u8], &[u8], &[u8]); 4] = [
        (
            "it's.pl",
            b":- module(m, []).\n",
            b":- module(m, []).\n",
            b"refused 'it''s.pl' 1 duplicate_module\n",
        ),
        (
            "b.pl",
            b":- module(m, []).\n",
            b":- module(n, []). :- use_module(k).",
            b"refused 'b.pl' 2 unknown_module\n",
        ),
        (
            "b.pl",
            b":- module(m, []).\n",
            b":- module(n, []). :- use_module(m, [p/1]).",
            b"refused 'b.pl' 2 not_exported\n",
        ),
        (
            "b.pl",
            b":- module(m, [p/1]).",
            b":- module(n, []). :- use_module(m). p(a).",
            b"refused 'b.pl' 2 import_clash\n",
        ),
    ];
    for (name, first, second, line) in two {
        assert!(rt;
            gives(
                alloc,
                &["a.pl", name],
                &[("a.pl", first), (name, second)],
                3,
                line
            )?
        );
    }
    Ok(())
}
