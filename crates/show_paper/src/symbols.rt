// The symbols of the notation, as text and in LaTeX.
use show_layout::Lines;

/// What stands on both sides of something.
#[derive(Clone, Copy, Debug, PartialEq, Eq)]
pub struct Pair {
    pub open: &'static str,
    pub close: &'static str,
}

/// A byte of a name or of a text that LaTeX does not take as it stands, and what stands for it.
#[derive(Clone, Copy, Debug, PartialEq, Eq)]
pub struct Special {
    pub byte: u8,
    pub text: &'static str,
}

/// A table of symbols: how the notation is spelled.
///
/// Rossberg, Russo and Dreyer, "F-ing modules", sections 3, 4 and 7, for the forms of types and of signatures.
#[derive(Clone, Copy, Debug, PartialEq, Eq)]
pub struct Symbols {
    /// What stands round all lines, and what a new line consists of.
    pub whole: Pair,
    pub lines: Lines,
    /// What stands round a word of the notation, round a name of the program and round a text, and between words.
    pub word: Pair,
    pub name: Pair,
    pub quoted: Pair,
    pub space: &'static str,
    /// What stands for bytes of names and texts. Any other byte stands for itself.
    pub specials: &'static [Special],
    /// The letters of variables, and the digits and brackets of a number below a letter.
    pub letters: [&'static str; 21],
    pub digits: [&'static str; 10],
    pub below: Pair,
    /// The kind of types, and arrows.
    pub star: &'static str,
    pub arrow: &'static str,
    pub pure_arrow: &'static str,
    pub impure_arrow: &'static str,
    /// What stands between a phrase and what it means, and between a module and its signature, by its effect.
    pub means: &'static str,
    pub pure_has: &'static str,
    pub impure_has: &'static str,
    /// Binders of type variables, and what stands between a variable and its kind.
    pub all: &'static str,
    pub exists: &'static str,
    pub lambda: &'static str,
    pub mu: &'static str,
    pub of_kind: &'static str,
    /// What stands round the number of a term variable, functions of types, and what stands behind a pattern of a branch.
    pub variable: Pair,
    pub type_lambda: &'static str,
    pub branch: &'static str,
    /// The brackets of records and of sums.
    pub record: Pair,
    pub sum: Pair,
}

/// The notation as text, in the characters of Unicode.
pub static UNICODE: Symbols = Symbols {
    whole: Pair {
        open: "",
        close: "\n",
    },
    lines: Lines {
        end: "",
        step: "  ",
    },
    word: Pair {
        open: "",
        close: "",
    },
    name: Pair {
        open: "",
        close: "",
    },
    quoted: Pair {
        open: "\"",
        close: "\"",
    },
    space: " ",
    specials: &[],
    letters: [
        "α", "β", "γ", "δ", "ε", "ζ", "η", "θ", "ι", "κ", "ν", "ξ", "π", "ρ", "σ", "τ", "υ", "φ",
        "χ", "ψ", "ω",
    ],
    digits: ["₀", "₁", "₂", "₃", "₄", "₅", "₆", "₇", "₈", "₉"],
    below: Pair {
        open: "",
        close: "",
    },
    star: "⋆",
    arrow: "→",
    pure_arrow: "→P",
    impure_arrow: "→I",
    means: "⇝",
    pure_has: ":P",
    impure_has: ":I",
    all: "∀",
    exists: "∃",
    lambda: "λ",
    mu: "μ",
    of_kind: ":",
    variable: Pair {
        open: "x",
        close: "",
    },
    type_lambda: "Λ",
    branch: "⇒",
    record: Pair {
        open: "{",
        close: "}",
    },
    sum: Pair {
        open: "⟨",
        close: "⟩",
    },
};

/// The notation in LaTeX, for math mode: an array, whose lines are those of the page.
pub static LATEX: Symbols = Symbols {
    whole: Pair {
        open: "\\begin{array}{l}\n",
        close: "\n\\end{array}\n",
    },
    lines: Lines {
        end: "\\\\{}",
        step: "\\quad ",
    },
    word: Pair {
        open: "\\mathsf{",
        close: "}",
    },
    name: Pair {
        open: "\\mathit{",
        close: "}",
    },
    quoted: Pair {
        open: "\\texttt{\"",
        close: "\"}",
    },
    space: "\\ ",
    specials: &[
        Special {
            byte: b'_',
            text: "\\_",
        },
        Special {
            byte: b'%',
            text: "\\%",
        },
        Special {
            byte: b'#',
            text: "\\#",
        },
        Special {
            byte: b'$',
            text: "\\$",
        },
        Special {
            byte: b'&',
            text: "\\&",
        },
        Special {
            byte: b'{',
            text: "\\{",
        },
        Special {
            byte: b'}',
            text: "\\}",
        },
        Special {
            byte: b' ',
            text: "\\ ",
        },
        Special {
            byte: b'~',
            text: "\\textasciitilde{}",
        },
        Special {
            byte: b'^',
            text: "\\textasciicircum{}",
        },
        Special {
            byte: b'\\',
            text: "\\textbackslash{}",
        },
    ],
    letters: [
        "\\alpha",
        "\\beta",
        "\\gamma",
        "\\delta",
        "\\epsilon",
        "\\zeta",
        "\\eta",
        "\\theta",
        "\\iota",
        "\\kappa",
        "\\nu",
        "\\xi",
        "\\pi",
        "\\rho",
        "\\sigma",
        "\\tau",
        "\\upsilon",
        "\\phi",
        "\\chi",
        "\\psi",
        "\\omega",
    ],
    digits: ["0", "1", "2", "3", "4", "5", "6", "7", "8", "9"],
    below: Pair {
        open: "_{",
        close: "}",
    },
    star: "\\star",
    arrow: "\\to",
    pure_arrow: "\\to_{\\mathsf{P}}",
    impure_arrow: "\\to_{\\mathsf{I}}",
    means: "\\leadsto",
    pure_has: ":_{\\mathsf{P}}",
    impure_has: ":_{\\mathsf{I}}",
    all: "\\forall ",
    exists: "\\exists ",
    lambda: "\\lambda ",
    mu: "\\mu ",
    of_kind: "{:}",
    variable: Pair {
        open: "x_{",
        close: "}",
    },
    type_lambda: "\\Lambda ",
    branch: "\\Rightarrow",
    record: Pair {
        open: "\\{",
        close: "\\}",
    },
    sum: Pair {
        open: "\\langle",
        close: "\\rangle",
    },
};
