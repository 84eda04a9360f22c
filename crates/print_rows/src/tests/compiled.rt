use super::printed;
use std::alloc::Global;
use std::test::Fail;

/// What clang 14 made of OpenCL C kernels, at -O0 and at -O2.
static COMPILED: [&str; 4] = [
    "; ModuleID = '-'
source_filename = \"-\"
target datalayout = \"e-i64:64-v16:16-v24:32-v32:32-v48:64-v96:128-v192:256-v256:256-v512:512-v1024:1024\"
target triple = \"spir64\"

; Function Attrs: convergent noinline norecurse nounwind optnone
define dso_local spir_kernel void @pick(<4 x i8> addrspace(1)* noundef %0, i32 noundef %1) #0 !kernel_arg_addr_space !4 !kernel_arg_access_qual !5 !kernel_arg_type !6 !kernel_arg_base_type !7 !kernel_arg_type_qual !8 {
  %3 = alloca <4 x i8> addrspace(1)*, align 8
  %4 = alloca i32, align 4
  store <4 x i8> addrspace(1)* %0, <4 x i8> addrspace(1)** %3, align 8
  store i32 %1, i32* %4, align 4
  %5 = load i32, i32* %4, align 4
  switch i32 %5, label %14 [
    i32 1, label %6
    i32 7, label %10
  ]

6:                                                ; preds = %2
  %7 = load <4 x i8> addrspace(1)*, <4 x i8> addrspace(1)** %3, align 8
  %8 = load <4 x i8>, <4 x i8> addrspace(1)* %7, align 4
  %9 = insertelement <4 x i8> %8, i8 3, i64 0
  store <4 x i8> %9, <4 x i8> addrspace(1)* %7, align 4
  br label %14

10:                                               ; preds = %2
  %11 = load <4 x i8> addrspace(1)*, <4 x i8> addrspace(1)** %3, align 8
  %12 = load <4 x i8>, <4 x i8> addrspace(1)* %11, align 4
  %13 = insertelement <4 x i8> %12, i8 -1, i64 1
  store <4 x i8> %13, <4 x i8> addrspace(1)* %11, align 4
  br label %14

14:                                               ; preds = %10, %2, %6
  ret void
}

attributes #0 = { convergent noinline norecurse nounwind optnone \"frame-pointer\"=\"all\" \"min-legal-vector-width\"=\"0\" \"no-trapping-math\"=\"true\" \"stack-protector-buffer-size\"=\"8\" \"uniform-work-group-size\"=\"true\" }

!llvm.module.flags = !{!0, !1}
!opencl.ocl.version = !{!2}
!opencl.spir.version = !{!2}
!llvm.ident = !{!3}

!0 = !{i32 1, !\"wchar_size\", i32 4}
!1 = !{i32 7, !\"frame-pointer\", i32 2}
!2 = !{i32 1, i32 2}
!3 = !{!\"Debian clang version 14.0.6\"}
!4 = !{i32 1, i32 0}
!5 = !{!\"none\", !\"none\"}
!6 = !{!\"char4*\", !\"int\"}
!7 = !{!\"char __attribute__((ext_vector_type(4)))*\", !\"int\"}
!8 = !{!\"\", !\"\"}
",
    "; ModuleID = '-'
source_filename = \"-\"
target datalayout = \"e-i64:64-v16:16-v24:32-v32:32-v48:64-v96:128-v192:256-v256:256-v512:512-v1024:1024\"
target triple = \"spir64\"

%struct.S = type { i8, [2 x i64] }

@t = dso_local local_unnamed_addr addrspace(2) constant [2 x %struct.S] [%struct.S { i8 1, [2 x i64] [i64 2, i64 3] }, %struct.S { i8 4, [2 x i64] [i64 5, i64 6] }], align 8

; Function Attrs: mustprogress nofree norecurse nosync nounwind willreturn
define dso_local spir_func void @pick(%struct.S* noalias nocapture writeonly sret(%struct.S) align 8 %0, i32 noundef %1) local_unnamed_addr #0 {
  %3 = sext i32 %1 to i64
  %4 = getelementptr inbounds %struct.S, %struct.S* %0, i64 0, i32 0
  %5 = getelementptr [2 x %struct.S], [2 x %struct.S] addrspace(2)* @t, i64 0, i64 %3, i32 0
  tail call void @llvm.memcpy.p0i8.p2i8.i64(i8* noundef nonnull align 8 dereferenceable(24) %4, i8 addrspace(2)* noundef align 8 dereferenceable(24) %5, i64 24, i1 false), !tbaa.struct !4
  ret void
}

; Function Attrs: argmemonly mustprogress nofree nounwind willreturn
declare void @llvm.memcpy.p0i8.p2i8.i64(i8* noalias nocapture writeonly, i8 addrspace(2)* noalias nocapture readonly, i64, i1 immarg) #1

; Function Attrs: mustprogress nofree norecurse nosync nounwind willreturn
define dso_local spir_kernel void @put(%struct.S addrspace(1)* nocapture noundef writeonly %0, i32 noundef %1) local_unnamed_addr #2 !kernel_arg_addr_space !8 !kernel_arg_access_qual !9 !kernel_arg_type !10 !kernel_arg_base_type !10 !kernel_arg_type_qual !11 {
  %3 = sext i32 %1 to i64
  %4 = getelementptr [2 x %struct.S], [2 x %struct.S] addrspace(2)* @t, i64 0, i64 %3, i32 0
  %5 = getelementptr %struct.S, %struct.S addrspace(1)* %0, i64 %3, i32 0
  call void @llvm.memcpy.p1i8.p2i8.i64(i8 addrspace(1)* noundef align 8 dereferenceable(24) %5, i8 addrspace(2)* noundef align 8 dereferenceable(24) %4, i64 24, i1 false)
  ret void
}

; Function Attrs: argmemonly nofree nounwind willreturn
declare void @llvm.memcpy.p1i8.p2i8.i64(i8 addrspace(1)* noalias nocapture writeonly, i8 addrspace(2)* noalias nocapture readonly, i64, i1 immarg) #3

attributes #0 = { mustprogress nofree norecurse nosync nounwind willreturn \"frame-pointer\"=\"all\" \"min-legal-vector-width\"=\"0\" \"no-trapping-math\"=\"true\" \"stack-protector-buffer-size\"=\"8\" }
attributes #1 = { argmemonly mustprogress nofree nounwind willreturn }
attributes #2 = { mustprogress nofree norecurse nosync nounwind willreturn \"frame-pointer\"=\"all\" \"min-legal-vector-width\"=\"0\" \"no-trapping-math\"=\"true\" \"stack-protector-buffer-size\"=\"8\" \"uniform-work-group-size\"=\"true\" }
attributes #3 = { argmemonly nofree nounwind willreturn }

!llvm.module.flags = !{!0, !1}
!opencl.ocl.version = !{!2}
!opencl.spir.version = !{!2}
!llvm.ident = !{!3}

!0 = !{i32 1, !\"wchar_size\", i32 4}
!1 = !{i32 7, !\"frame-pointer\", i32 2}
!2 = !{i32 1, i32 2}
!3 = !{!\"Debian clang version 14.0.6\"}
!4 = !{i64 0, i64 1, !5, i64 8, i64 16, !5}
!5 = !{!6, !6, i64 0}
!6 = !{!\"omnipotent char\", !7, i64 0}
!7 = !{!\"Simple C/C++ TBAA\"}
!8 = !{i32 1, i32 0}
!9 = !{!\"none\", !\"none\"}
!10 = !{!\"S*\", !\"int\"}
!11 = !{!\"\", !\"\"}
",
    "; ModuleID = '-'
source_filename = \"-\"
target datalayout = \"e-i64:64-v16:16-v24:32-v32:32-v48:64-v96:128-v192:256-v256:256-v512:512-v1024:1024\"
target triple = \"spir64\"

@size.t = internal addrspace(3) global [16 x i32] undef, align 4

; Function Attrs: convergent noinline norecurse nounwind optnone
define dso_local spir_kernel void @size(i64 addrspace(1)* noundef %0, i32 addrspace(2)* noundef %1) #0 !kernel_arg_addr_space !2 !kernel_arg_access_qual !4 !kernel_arg_type !5 !kernel_arg_base_type !5 !kernel_arg_type_qual !6 !work_group_size_hint !7 !reqd_work_group_size !7 {
  %3 = alloca i64 addrspace(1)*, align 8
  %4 = alloca i32 addrspace(2)*, align 8
  store i64 addrspace(1)* %0, i64 addrspace(1)** %3, align 8
  store i32 addrspace(2)* %1, i32 addrspace(2)** %4, align 8
  %5 = load i32 addrspace(2)*, i32 addrspace(2)** %4, align 8
  %6 = load i32, i32 addrspace(2)* %5, align 4
  %7 = call spir_func i64 @_Z12get_local_idj(i32 noundef 0) #2
  %8 = getelementptr [16 x i32], [16 x i32] addrspace(3)* @size.t, i64 0, i64 %7
  store i32 %6, i32 addrspace(3)* %8, align 4
  %9 = load i32, i32 addrspace(3)* getelementptr inbounds ([16 x i32], [16 x i32] addrspace(3)* @size.t, i64 0, i64 3), align 4
  %10 = load i32 addrspace(2)*, i32 addrspace(2)** %4, align 8
  %11 = load i32, i32 addrspace(2)* %10, align 4
  %12 = udiv i32 %9, %11
  %13 = urem i32 %12, 5
  %14 = zext i32 %13 to i64
  %15 = load i64 addrspace(1)*, i64 addrspace(1)** %3, align 8
  store i64 %14, i64 addrspace(1)* %15, align 8
  ret void
}

; Function Attrs: convergent nounwind readnone willreturn
declare dso_local spir_func i64 @_Z12get_local_idj(i32 noundef) #1

attributes #0 = { convergent noinline norecurse nounwind optnone \"frame-pointer\"=\"all\" \"min-legal-vector-width\"=\"0\" \"no-trapping-math\"=\"true\" \"stack-protector-buffer-size\"=\"8\" \"uniform-work-group-size\"=\"true\" }
attributes #1 = { convergent nounwind readnone willreturn \"frame-pointer\"=\"all\" \"no-trapping-math\"=\"true\" \"stack-protector-buffer-size\"=\"8\" }
attributes #2 = { convergent nounwind readnone willreturn }

!llvm.module.flags = !{!0, !1}
!opencl.ocl.version = !{!2}
!opencl.spir.version = !{!2}
!llvm.ident = !{!3}

!0 = !{i32 1, !\"wchar_size\", i32 4}
!1 = !{i32 7, !\"frame-pointer\", i32 2}
!2 = !{i32 1, i32 2}
!3 = !{!\"Debian clang version 14.0.6\"}
!4 = !{!\"none\", !\"none\"}
!5 = !{!\"ulong*\", !\"uint*\"}
!6 = !{!\"\", !\"const\"}
!7 = !{i32 8, i32 2, i32 1}
",
    "; ModuleID = '-'
source_filename = \"-\"
target datalayout = \"e-i64:64-v16:16-v24:32-v32:32-v48:64-v96:128-v192:256-v256:256-v512:512-v1024:1024\"
target triple = \"spir64\"

; Function Attrs: nofree norecurse nosync nounwind
define dso_local spir_kernel void @sum(i32 addrspace(1)* nocapture noundef %0, i32 noundef %1) local_unnamed_addr #0 !kernel_arg_addr_space !4 !kernel_arg_access_qual !5 !kernel_arg_type !6 !kernel_arg_base_type !6 !kernel_arg_type_qual !7 {
  %3 = icmp sgt i32 %1, 0
  br i1 %3, label %6, label %4

4:                                                ; preds = %6, %2
  %5 = phi i32 [ 0, %2 ], [ %12, %6 ]
  store i32 %5, i32 addrspace(1)* %0, align 4, !tbaa !8
  ret void

6:                                                ; preds = %2, %6
  %7 = phi i32 [ %13, %6 ], [ 0, %2 ]
  %8 = phi i32 [ %12, %6 ], [ 0, %2 ]
  %9 = zext i32 %7 to i64
  %10 = getelementptr i32, i32 addrspace(1)* %0, i64 %9
  %11 = load i32, i32 addrspace(1)* %10, align 4, !tbaa !8
  %12 = add i32 %11, %8
  %13 = add nuw nsw i32 %7, 1
  %14 = icmp slt i32 %13, %1
  br i1 %14, label %6, label %4
}

attributes #0 = { nofree norecurse nosync nounwind \"frame-pointer\"=\"all\" \"min-legal-vector-width\"=\"0\" \"no-trapping-math\"=\"true\" \"stack-protector-buffer-size\"=\"8\" \"uniform-work-group-size\"=\"true\" }

!llvm.module.flags = !{!0, !1}
!opencl.ocl.version = !{!2}
!opencl.spir.version = !{!2}
!llvm.ident = !{!3}

!0 = !{i32 1, !\"wchar_size\", i32 4}
!1 = !{i32 7, !\"frame-pointer\", i32 2}
!2 = !{i32 1, i32 2}
!3 = !{!\"Debian clang version 14.0.6\"}
!4 = !{i32 1, i32 0}
!5 = !{!\"none\", !\"none\"}
!6 = !{!\"int*\", !\"int\"}
!7 = !{!\"\", !\"\"}
!8 = !{!9, !9, i64 0}
!9 = !{!\"int\", !10, i64 0}
!10 = !{!\"omnipotent char\", !11, i64 0}
!11 = !{!\"Simple C/C++ TBAA\"}
",
];

/// The first text that isn't printed as a module's text that is printed as itself, if there is one.
fn misprinted_text(alloc: Global) -> Result<Option<usize>, Fail> {
    for i in 0..COMPILED.len() {
        let first = String::from_utf8_lossy(alloc, printed(alloc, COMPILED[i])?.as_slice())?;
        let again = printed(alloc, &first)?;
        if first.is_empty() || again.as_slice() != first.as_bytes() {
            return Ok(Some(i));
        }
    }
    Ok(None)
}

#[test]
fn compiled_kernels_are_printed(rt: HostRuntime) -> Result<(), Fail> {
    let wrong = misprinted_text(rt.alloc())?;
    assert_eq!(rt; wrong, None);
    Ok(())
}
