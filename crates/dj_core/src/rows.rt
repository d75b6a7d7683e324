//! The table of the classes, by their texts.

ghost use Rattle.std.specs.Prelude.{◌≡◌, ◌<◌, IsSomeAnd, length, map, slice_get};
ghost use Rattle.dj_core.specs.CoreTable.{core_classes};
ghost use Rattle.dj_core.specs.Rows.{row_lines, spell_class};

/// Methods of the same flags that declare to throw the same classes, by name and descriptor.
pub struct Group {
    pub flags: u16,
    pub thrown: &'static [&'static str],
    pub methods: &'static [(&'static str, &'static str)],
}

/// A class or interface, with its methods in groups.
pub struct Row {
    pub name: &'static str,
    pub flags: u16,
    pub superclass: Option<&'static str>,
    pub interfaces: &'static [&'static str],
    pub groups: &'static [Group],
}

/// Constructors of nothing and of a message.
const PLAIN: [Group; 1] = [Group {
    flags: 0x0001,
    thrown: &[],
    methods: &[("<init>", "()V"), ("<init>", "(Ljava/lang/String;)V")],
}];

/// Constructors that take a message, a cause, both or nothing.
const CAUSED: [Group; 1] = [Group {
    flags: 0x0001,
    thrown: &[],
    methods: &[
        ("<init>", "()V"),
        ("<init>", "(Ljava/lang/String;)V"),
        ("<init>", "(Ljava/lang/String;Ljava/lang/Throwable;)V"),
        ("<init>", "(Ljava/lang/Throwable;)V"),
    ],
}];

/// The classes, in the order in which they are filled in.
static TABLE: [Row; 24] = [
    Row {
        name: "java/lang/Object",
        flags: 0x0021,
        superclass: None,
        interfaces: &[],
        groups: &[
            Group {
                flags: 0x0001,
                thrown: &[],
                methods: &[
                    ("<init>", "()V"),
                    ("equals", "(Ljava/lang/Object;)Z"),
                    ("hashCode", "()I"),
                    ("toString", "()Ljava/lang/String;"),
                ],
            },
            Group {
                flags: 0x0011,
                thrown: &[],
                methods: &[
                    ("getClass", "()Ljava/lang/Class;"),
                    ("notify", "()V"),
                    ("notifyAll", "()V"),
                ],
            },
            Group {
                flags: 0x0011,
                thrown: &["java/lang/InterruptedException"],
                methods: &[("wait", "()V"), ("wait", "(J)V"), ("wait", "(JI)V")],
            },
            Group {
                flags: 0x0004,
                thrown: &["java/lang/CloneNotSupportedException"],
                methods: &[("clone", "()Ljava/lang/Object;")],
            },
            Group {
                flags: 0x0004,
                thrown: &["java/lang/Throwable"],
                methods: &[("finalize", "()V")],
            },
        ],
    },
    Row {
        name: "java/lang/Cloneable",
        flags: 0x0601,
        superclass: Some("java/lang/Object"),
        interfaces: &[],
        groups: &[],
    },
    Row {
        name: "java/io/Serializable",
        flags: 0x0601,
        superclass: Some("java/lang/Object"),
        interfaces: &[],
        groups: &[],
    },
    Row {
        name: "java/lang/Comparable",
        flags: 0x0601,
        superclass: Some("java/lang/Object"),
        interfaces: &[],
        groups: &[Group {
            flags: 0x0401,
            thrown: &[],
            methods: &[("compareTo", "(Ljava/lang/Object;)I")],
        }],
    },
    Row {
        name: "java/lang/CharSequence",
        flags: 0x0601,
        superclass: Some("java/lang/Object"),
        interfaces: &[],
        groups: &[Group {
            flags: 0x0401,
            thrown: &[],
            methods: &[
                ("length", "()I"),
                ("charAt", "(I)C"),
                ("subSequence", "(II)Ljava/lang/CharSequence;"),
                ("toString", "()Ljava/lang/String;"),
            ],
        }],
    },
    Row {
        name: "java/lang/Class",
        flags: 0x0031,
        superclass: Some("java/lang/Object"),
        interfaces: &[],
        groups: &[Group {
            flags: 0x0001,
            thrown: &[],
            methods: &[
                ("getName", "()Ljava/lang/String;"),
                ("desiredAssertionStatus", "()Z"),
            ],
        }],
    },
    Row {
        name: "java/lang/String",
        flags: 0x0031,
        superclass: Some("java/lang/Object"),
        interfaces: &[
            "java/io/Serializable",
            "java/lang/Comparable",
            "java/lang/CharSequence",
        ],
        groups: &[
            Group {
                flags: 0x0001,
                thrown: &[],
                methods: &[
                    ("length", "()I"),
                    ("charAt", "(I)C"),
                    ("equals", "(Ljava/lang/Object;)Z"),
                    ("hashCode", "()I"),
                    ("isEmpty", "()Z"),
                    ("concat", "(Ljava/lang/String;)Ljava/lang/String;"),
                    ("compareTo", "(Ljava/lang/String;)I"),
                    ("substring", "(I)Ljava/lang/String;"),
                    ("substring", "(II)Ljava/lang/String;"),
                ],
            },
            Group {
                flags: 0x0009,
                thrown: &[],
                methods: &[
                    ("valueOf", "(I)Ljava/lang/String;"),
                    ("valueOf", "(J)Ljava/lang/String;"),
                    ("valueOf", "(C)Ljava/lang/String;"),
                    ("valueOf", "(Z)Ljava/lang/String;"),
                    ("valueOf", "(Ljava/lang/Object;)Ljava/lang/String;"),
                ],
            },
        ],
    },
    Row {
        name: "java/lang/StringBuilder",
        flags: 0x0031,
        superclass: Some("java/lang/Object"),
        interfaces: &["java/io/Serializable", "java/lang/CharSequence"],
        groups: &[Group {
            flags: 0x0001,
            thrown: &[],
            methods: &[
                ("<init>", "()V"),
                ("<init>", "(Ljava/lang/String;)V"),
                ("append", "(Z)Ljava/lang/StringBuilder;"),
                ("append", "(C)Ljava/lang/StringBuilder;"),
                ("append", "(I)Ljava/lang/StringBuilder;"),
                ("append", "(J)Ljava/lang/StringBuilder;"),
                ("append", "(Ljava/lang/String;)Ljava/lang/StringBuilder;"),
                ("append", "(Ljava/lang/Object;)Ljava/lang/StringBuilder;"),
                ("length", "()I"),
                ("toString", "()Ljava/lang/String;"),
            ],
        }],
    },
    Row {
        name: "java/lang/Throwable",
        flags: 0x0021,
        superclass: Some("java/lang/Object"),
        interfaces: &["java/io/Serializable"],
        groups: &[
            Group {
                flags: 0x0001,
                thrown: &[],
                methods: &[
                    ("<init>", "()V"),
                    ("<init>", "(Ljava/lang/String;)V"),
                    ("<init>", "(Ljava/lang/String;Ljava/lang/Throwable;)V"),
                    ("<init>", "(Ljava/lang/Throwable;)V"),
                    ("getMessage", "()Ljava/lang/String;"),
                    ("getCause", "()Ljava/lang/Throwable;"),
                    ("initCause", "(Ljava/lang/Throwable;)Ljava/lang/Throwable;"),
                ],
            },
            Group {
                flags: 0x0011,
                thrown: &[],
                methods: &[("addSuppressed", "(Ljava/lang/Throwable;)V")],
            },
            Group {
                flags: 0x0001,
                thrown: &[],
                methods: &[
                    ("toString", "()Ljava/lang/String;"),
                    ("printStackTrace", "()V"),
                ],
            },
        ],
    },
    Row {
        name: "java/lang/Exception",
        flags: 0x0021,
        superclass: Some("java/lang/Throwable"),
        interfaces: &[],
        groups: &CAUSED,
    },
    Row {
        name: "java/lang/RuntimeException",
        flags: 0x0021,
        superclass: Some("java/lang/Exception"),
        interfaces: &[],
        groups: &CAUSED,
    },
    Row {
        name: "java/lang/Error",
        flags: 0x0021,
        superclass: Some("java/lang/Throwable"),
        interfaces: &[],
        groups: &CAUSED,
    },
    Row {
        name: "java/lang/ArithmeticException",
        flags: 0x0021,
        superclass: Some("java/lang/RuntimeException"),
        interfaces: &[],
        groups: &PLAIN,
    },
    Row {
        name: "java/lang/IndexOutOfBoundsException",
        flags: 0x0021,
        superclass: Some("java/lang/RuntimeException"),
        interfaces: &[],
        groups: &PLAIN,
    },
    Row {
        name: "java/lang/ArrayStoreException",
        flags: 0x0021,
        superclass: Some("java/lang/RuntimeException"),
        interfaces: &[],
        groups: &PLAIN,
    },
    Row {
        name: "java/lang/ClassCastException",
        flags: 0x0021,
        superclass: Some("java/lang/RuntimeException"),
        interfaces: &[],
        groups: &PLAIN,
    },
    Row {
        name: "java/lang/NegativeArraySizeException",
        flags: 0x0021,
        superclass: Some("java/lang/RuntimeException"),
        interfaces: &[],
        groups: &PLAIN,
    },
    Row {
        name: "java/lang/NullPointerException",
        flags: 0x0021,
        superclass: Some("java/lang/RuntimeException"),
        interfaces: &[],
        groups: &PLAIN,
    },
    Row {
        name: "java/lang/IllegalMonitorStateException",
        flags: 0x0021,
        superclass: Some("java/lang/RuntimeException"),
        interfaces: &[],
        groups: &PLAIN,
    },
    Row {
        name: "java/lang/IllegalArgumentException",
        flags: 0x0021,
        superclass: Some("java/lang/RuntimeException"),
        interfaces: &[],
        groups: &CAUSED,
    },
    Row {
        name: "java/lang/ArrayIndexOutOfBoundsException",
        flags: 0x0021,
        superclass: Some("java/lang/IndexOutOfBoundsException"),
        interfaces: &[],
        groups: &PLAIN,
    },
    Row {
        name: "java/lang/CloneNotSupportedException",
        flags: 0x0021,
        superclass: Some("java/lang/Exception"),
        interfaces: &[],
        groups: &PLAIN,
    },
    Row {
        name: "java/lang/InterruptedException",
        flags: 0x0021,
        superclass: Some("java/lang/Exception"),
        interfaces: &[],
        groups: &PLAIN,
    },
    Row {
        name: "java/io/IOException",
        flags: 0x0021,
        superclass: Some("java/lang/Exception"),
        interfaces: &[],
        groups: &CAUSED,
    },
];

/// The rows of the table.
fn rows() -> &'static [Row]
    ensures table { map row_lines result.now ≡ map spell_class core_classes }
    ensures count { length result.now ≡ 24 }
{
    &TABLE
}

/// The class at a place.
pub fn row_at(at: usize) -> &'static Row
    requires within { at < 24 }
    ensures row { IsSomeAnd (slice_get core_classes at) (λ core. row_lines result.now ≡ spell_class core) }
{
    &rows()[at]
}
