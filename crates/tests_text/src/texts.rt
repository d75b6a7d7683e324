//! Texts written by hand from the rules of the text: each is read, its unit copied, and the copy printed as that text.

use dj_print::unit_bytes;
use dj_read::{ReadUnitFault, read_unit};
use std::alloc::{AllocError, Global};
use std::test::*;

pub const DIFFERENCE: &str = "public class C {
    static int f(int p0, int p1) {
        return p0 - p1;
    }
}
";

pub const FINAL_CLASS: &str = "package p.q;
public final class D extends p.Base implements p.I, J {
    private static final int x = ((-5) + 7) * 3;
    protected volatile p.T[][] y;
    static <T extends java.lang.Throwable> java.lang.RuntimeException rethrow$0(java.lang.Throwable t) throws T {
        throw (T) t;
    }
    D(long p0, p.T[] p1) throws p.E, F {
        {
            return;
        }
    }
    static {
    }
}
";

const INTERFACE: &str = "interface I extends p.A {
    int f();
    default void g() {
    }
}
";

const TYPES: &str = "class Types {
    private transient boolean a;
    byte b;
    short c;
    char[][][] d;
    long e;
    float[] f;
    double g;
    native Types[][] h(p.q.T p0, Types p1);
}
";

const OPERATORS: &str = "class Operators {
    int f(int p0) {
        return p0 * v1;
        return v1 / e2;
        return e2 % s3;
        return s3 + 0;
        return (p0 - v1) - (e2 - s3);
        return 1 << 31;
        return 1 >> 31;
        return 1 >>> 31;
        return p0 < v1;
        return p0 <= v1;
        return p0 > v1;
        return p0 >= v1;
        return p0 == v1;
        return p0 != v1;
        return p0 & v1;
        return p0 ^ v1;
        return p0 | v1;
        return p0 && v1;
        return p0 || v1;
    }
}
";

/// Each kind of member, statement and expression.
pub const KINDS: &str = "package a.b;
public abstract class C extends a.Base implements I, a.J {
    int a;
    public static final int b = -5;
    protected transient volatile long[][] c;
    private final java.lang.String d = \"\\b\\t\\n\\f\\r\\\"\\\\ ~\\u0000\\u007f\\uffff\";
    static final boolean e = true;
    static <T extends java.lang.Throwable> java.lang.RuntimeException rethrow$10(java.lang.Throwable t) throws T {
        throw (T) t;
    }
    public abstract int[] f(long p0, a.C[] p1) throws a.E, F;
    protected static final synchronized native void g();
    private C(int p0) {
        this(p0, -9223372036854775808L);
    }
    C() throws E {
        super();
    }
    static {
        C.f = 5;
    }
    int h(int p0) {
        {
            return;
        }
        l0: l4294967295: while (true) {
            continue l0;
        }
        int v0;
        a.C[] e1 = null;
        v0 = p0 - 1;
        p0.f = 0L;
        (C.f).g = v0;
        a.C.f = -1;
        p0[p1 + 1] = s1 = 5;
        p0.f();
        new a.C(p0 * p1, new D());
        if (p0 == 5) {
            break l0;
        }
        if (!p0) {
        } else {
            if (p1 instanceof a.C[]) {
            }
        }
        switch (p0 << 1) {
            case -5:
            case 0:
                v0 = 1;
                break l0;
            default:
                C.f(this, a.I.super.f() ? 1 : (p0 = 2));
        }
        do {
            super.f(int[].class);
        } while (v0 < p0);
        for (; v0 >= 5; v0 = v0 + 1) {
            (C.f).g(\"\").h();
        }
        try {
            throw new java.lang.Error();
        } catch (a.E e0) {
            throw a.b.C.<java.lang.RuntimeException>rethrow$10(e0);
        } catch (F e1) {
        }
        try {
        } finally {
            v0 = (int) (-(-p0));
        }
        synchronized (C.class) {
            v1 = new int[p0][5][][];
        }
        return (new C(null)).f[-1] ? false : ((a.C) p0);
    }
}
";

const TEXTS: &[&str] = &[KINDS, FINAL_CLASS, INTERFACE, TYPES, OPERATORS];

/// The text of a copy of the unit that these bytes are read as, where they are read.
pub fn printed_again(alloc: Global, bytes: &[u8]) -> Result<Option<Vec<u8>>, AllocError> {
    match read_unit(alloc, bytes) {
        Ok(unit) => {
            let copy = unit.copy(alloc)?;
            Ok(Some(unit_bytes(alloc, &copy)?))
        }
        Err(ReadUnitFault::Misread | ReadUnitFault::Deep) => Ok(None),
        Err(ReadUnitFault::Memory(error)) => Err(error),
    }
}

pub fn is_printed_again(alloc: Global, bytes: &[u8]) -> Result<bool, AllocError> {
    Ok(match printed_again(alloc, bytes)? {
        Some(again) => again.as_slice() == bytes,
        None => false,
    })
}

#[test]
fn texts_are_printed_again(rt: HostRuntime) -> Result<(), Fail> {
    for text in TEXTS {
        assert!(rt; is_printed_again(rt.alloc(), text.as_bytes())?, "{text}");
    }
    Ok(())
}

#[test]
fn an_interface_implies_its_flags(rt: HostRuntime) -> Result<(), Fail> {
    let unit = read_unit(rt.alloc(), INTERFACE.as_bytes())?;
    assert_eq!(rt; unit.flags, 0x0600);
    Ok(())
}

/// Ends a line, and indents the next one by so many levels, twenty at most.
pub fn put_line(text: &mut Vec<u8>, level: u32, line: &[u8]) -> Result<(), AllocError> {
    text.push(b'\n')?;
    for _ in 0..level.min(20) {
        text.extend_from_slice(b"    ")?;
    }
    text.extend_from_slice(line)
}
