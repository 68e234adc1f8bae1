//! The rows of the table of commands as code of the database.

/// Returns the refusal of a need, if the database and the command's fields don't meet the need. A need about the target
/// alone is skipped.
macro_rules! refuse_names_unless {
    (held $refusal:ident $row:tt) => {};
    (resting $refusal:ident $row:tt) => {};
    (own_build $refusal:ident $row:tt) => {};
    (others $refusal:ident [$redo:tt $t:ident $names:ident]) => {
        if is_among($names, *$t) {
            return Some(Refusal::$refusal);
        }
    };
    (missing $refusal:ident [$redo:tt $t:ident $names:ident]) => {
        if let Some(n) = $redo.existing($names) {
            return Some(Refusal::$refusal(n));
        }
    };
}

/// The refusal of the first of a row's needs of names that is not met.
macro_rules! first_refusal_of_names {
    ($row:tt $($need:ident $refusal:ident)*) => {{
        $(refuse_names_unless!($need $refusal $row);)*
        None
    }};
}

macro_rules! refusals_of_names {
    (
        [$redo:tt $command:ident]
        $((
            $case:ident $(($($field:ident),*))?,
            $word:literal,
            [$($need:ident $refusal:ident),*],
            $answer:ident,
            $effect:ident
        ))*
    ) => {
        match $command {
            $(Command::$case $(($($field),*))? =>
                first_refusal_of_names!([$redo $($($field)*)?] $($need $refusal)*),)*
        }
    };
}

/// The reply to an accepted command, by the word for its answer, the database and allocator, and the command's fields.
macro_rules! answer {
    (okay [$redo:tt $alloc:tt] $($field:ident)*) => {
        Ok(Reply::Okay)
    };
    (grant [$redo:tt $alloc:tt] $t:ident) => {
        unreachable!()
    };
    (digest [$redo:tt $alloc:tt] $t:ident $content:ident) => {
        Ok(Reply::Stamped(Digest::new(digest_of($content))))
    };
    (stale [$redo:tt $alloc:tt] $t:ident $names:ident) => {
        $redo.stale_reply($alloc, $names.as_slice())
    };
    (ood [$redo:tt $alloc:tt]) => {
        Ok(Reply::Ood($redo.ood($alloc)?))
    };
    (targets [$redo:tt $alloc:tt]) => {
        Ok(Reply::Targets($redo.targets($alloc)?))
    };
    (sources [$redo:tt $alloc:tt]) => {
        Ok(Reply::Sources($redo.sources($alloc)?))
    };
}

macro_rules! answers {
    (
        [$redo:tt $alloc:tt $command:ident]
        $((
            $case:ident $(($($field:ident),*))?,
            $word:literal,
            $needs:tt,
            $answer:ident,
            $effect:ident
        ))*
    ) => {
        match $command {
            $(Command::$case $(($($field),*))? => answer!($answer [$redo $alloc] $($($field)*)?),)*
        }
    };
}

/// The change of an accepted command, by the word for its effect, the database and session, and the command's fields.
macro_rules! effect {
    (nothing [$redo:tt $s:tt] $($field:ident)*) => {
        {}
    };
    (set_file [$redo:tt $s:tt] $n:ident $stamp:ident) => {
        $redo.set_file(*$n, Some(**$stamp))
    };
    (clear_file [$redo:tt $s:tt] $n:ident) => {
        $redo.set_file(*$n, None)
    };
    (start [$redo:tt $s:tt] $t:ident) => {
        $redo.start($s, *$t)
    };
    (put_changes [$redo:tt $s:tt] $t:ident $names:ident) => {
        $redo.put_changes(*$t, $names)
    };
    (put_created [$redo:tt $s:tt] $t:ident $names:ident) => {
        $redo.put_created(*$t, $names)
    };
    (put_always [$redo:tt $s:tt] $t:ident) => {
        $redo.put_always(*$t)
    };
    (stamp [$redo:tt $s:tt] $t:ident $content:ident) => {
        $redo.stamp(*$t, $content)
    };
    (done [$redo:tt $s:tt] $t:ident $stamp:ident) => {
        $redo.done(*$t, unboxed($stamp))
    };
    (failed [$redo:tt $s:tt] $t:ident) => {
        $redo.failed(*$t)
    };
}

macro_rules! effects {
    (
        [$redo:tt $s:tt $command:ident]
        $((
            $case:ident $(($($field:ident),*))?,
            $word:literal,
            $needs:tt,
            $answer:ident,
            $effect:ident
        ))*
    ) => {
        match $command {
            $(Command::$case $(($($field),*))? => effect!($effect [$redo $s] $($($field)*)?),)*
        }
    };
}

pub(crate) use answer;
pub(crate) use answers;
pub(crate) use effect;
pub(crate) use effects;
pub(crate) use first_refusal_of_names;
pub(crate) use refusals_of_names;
pub(crate) use refuse_names_unless;
